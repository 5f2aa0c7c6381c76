// The words of a text, and what is wrong with them.
use reader::scanning::scan;
use reader::word::{Keyword, ReaderFault, Scanned, Symbol, Word};
use std::process::Abort;
use std::test::Fail;
use values::value::Value;

// A word, with what can be compared of it: of a name and of a literal the bytes.
#[derive(Clone, Copy, Debug, PartialEq)]
enum Seen {
    Keyword(Keyword),
    Symbol(Symbol),
    Name([u8; 16]),
    Literal([u8; 17]),
}

impl From<Word> for Seen {
    fn from(word: Word) -> Seen {
        match word {
            Word::Keyword(keyword) => Seen::Keyword(keyword),
            Word::Symbol(symbol) => Seen::Symbol(symbol),
            Word::Name(name) => Seen::Name(name.to_bytes()),
            Word::Literal(value) => Seen::Literal(value.to_bytes()),
        }
    }
}

// The next word is this one.
fn found(rt: &impl Abort, text: &[u8], from: usize, wanted: Seen) -> Result<Scanned, Fail> {
    let scanned = scan(text, from)?.ok_or("no word")?;
    assert_eq!(rt; Seen::from(scanned.word), wanted);
    Ok(scanned)
}

// The next word is this keyword, and it stands here.
fn keyword(
    rt: &impl Abort,
    text: &[u8],
    from: usize,
    wanted: Keyword,
    place: usize,
) -> Result<usize, Fail> {
    let scanned = found(rt, text, from, Seen::Keyword(wanted))?;
    assert_eq!(rt; scanned.place, place);
    Ok(scanned.end)
}

// The next word is this one, and it ends here.
fn word(rt: &impl Abort, text: &[u8], from: usize, wanted: Seen, end: usize) -> Result<(), Fail> {
    let scanned = found(rt, text, from, wanted)?;
    assert_eq!(rt; scanned.end, end);
    Ok(())
}

fn literal(rt: &impl Abort, text: &[u8], wanted: Option<Value>, end: usize) -> Result<(), Fail> {
    let wanted = wanted.ok_or("no value")?;
    let scanned = found(rt, text, 0, Seen::Literal(wanted.to_bytes()))?;
    assert_eq!(rt; scanned.place, 0);
    assert_eq!(rt; scanned.end, end);
    Ok(())
}

fn refused(rt: &impl Abort, text: &[u8], from: usize, wanted: ReaderFault) {
    assert_eq!(rt; scan(text, from).err(), Some(wanted));
}

fn ended(rt: &impl Abort, text: &[u8], from: usize) -> Result<(), Fail> {
    assert!(rt; scan(text, from)?.is_none());
    Ok(())
}

#[test]
fn blanks_part_words_and_a_text_may_be_empty(rt: HostRuntime) -> Result<(), Fail> {
    ended(&rt, b"", 0)?;
    ended(&rt, b"", 1)?;
    ended(&rt, b" \t\n ", 0)?;
    ended(&rt, b"select", 6)?;
    ended(&rt, b"select", 7)?;
    ended(&rt, b"select", 0xffff_ffff_ffff_ffff)?;
    let text = b"\t SELECT\nFrom  wHere";
    let end = keyword(&rt, text, 0, Keyword::Select, 2)?;
    let end = keyword(&rt, text, end, Keyword::From, 9)?;
    let end = keyword(&rt, text, end, Keyword::Where, 15)?;
    ended(&rt, text, end)
}

#[test]
fn keywords_and_names(rt: HostRuntime) -> Result<(), Fail> {
    let _ = keyword(&rt, b"union", 0, Keyword::Union, 0)?;
    let _ = keyword(&rt, b"Intersection", 0, Keyword::Intersection, 0)?;
    let _ = keyword(&rt, b"and", 0, Keyword::And, 0)?;
    let _ = keyword(&rt, b"OR", 0, Keyword::Or, 0)?;
    let _ = keyword(&rt, b"not", 0, Keyword::Not, 0)?;
    word(&rt, b"selects", 0, Seen::Name(*b"selects         "), 7)?;
    word(&rt, b"no_t", 0, Seen::Name(*b"no_t            "), 4)?;
    word(&rt, b"A1_b ", 0, Seen::Name(*b"a1_b            "), 4)?;
    word(
        &rt,
        b"abcdefghijklmnoP",
        0,
        Seen::Name(*b"abcdefghijklmnop"),
        16,
    )?;
    let long = b" abcdefghijklmnopq";
    refused(&rt, long, 0, ReaderFault::WordTooLong { place: 1 });
    refused(&rt, b"_a", 0, ReaderFault::Byte { place: 0 });
    Ok(())
}

#[test]
fn the_longer_symbol_is_taken(rt: HostRuntime) -> Result<(), Fail> {
    word(&rt, b"<=", 0, Seen::Symbol(Symbol::LessOrEqual), 2)?;
    word(&rt, b"<>", 0, Seen::Symbol(Symbol::NotEqual), 2)?;
    word(&rt, b">=", 0, Seen::Symbol(Symbol::GreaterOrEqual), 2)?;
    word(&rt, b"< =", 0, Seen::Symbol(Symbol::Less), 1)?;
    word(&rt, b"< =", 1, Seen::Symbol(Symbol::Equal), 3)?;
    word(&rt, b"=<", 0, Seen::Symbol(Symbol::Equal), 1)?;
    word(&rt, b">", 0, Seen::Symbol(Symbol::Greater), 1)?;
    word(&rt, b"<", 0, Seen::Symbol(Symbol::Less), 1)?;
    word(&rt, b",", 0, Seen::Symbol(Symbol::Comma), 1)?;
    word(&rt, b".5", 0, Seen::Symbol(Symbol::Point), 1)?;
    word(&rt, b"(", 0, Seen::Symbol(Symbol::Open), 1)?;
    word(&rt, b")", 0, Seen::Symbol(Symbol::Close), 1)?;
    word(&rt, b"+", 0, Seen::Symbol(Symbol::Plus), 1)?;
    word(&rt, b"--", 0, Seen::Symbol(Symbol::Minus), 1)?;
    word(&rt, b"*", 0, Seen::Symbol(Symbol::Star), 1)?;
    word(&rt, b"/", 0, Seen::Symbol(Symbol::Slash), 1)
}

#[test]
fn integers(rt: HostRuntime) -> Result<(), Fail> {
    literal(&rt, b"0", Some(Value::integer(0)), 1)?;
    literal(&rt, b"2147483647", Some(Value::integer(2147483647)), 10)?;
    literal(&rt, b"000000000000042", Some(Value::integer(42)), 15)?;
    literal(&rt, b"1.", Some(Value::integer(1)), 1)?;
    literal(&rt, b"1.x", Some(Value::integer(1)), 1)?;
    literal(&rt, b"1from", Some(Value::integer(1)), 1)?;
    refused(&rt, b"2147483648", 0, ReaderFault::WordTooLong { place: 0 });
    refused(
        &rt,
        b"0000000000000042",
        0,
        ReaderFault::WordTooLong { place: 0 },
    );
    Ok(())
}

#[test]
fn reals(rt: HostRuntime) -> Result<(), Fail> {
    literal(&rt, b"1.5", Value::real(1.5), 3)?;
    literal(&rt, b"0.1", Value::real(0.1), 3)?;
    literal(&rt, b"00.0", Value::real(0.0), 4)?;
    literal(&rt, b"2147483648.0", Value::real(2147483648.0), 12)?;
    literal(&rt, b"99999999999999.9", Value::real(99999999999999.9), 16)?;
    literal(&rt, b"0.00000000000001", Value::real(0.00000000000001), 16)?;
    literal(&rt, b"1.5.5", Value::real(1.5), 3)?;
    refused(
        &rt,
        b"0.000000000000001",
        0,
        ReaderFault::WordTooLong { place: 0 },
    );
    refused(
        &rt,
        b"999999999999999.9",
        0,
        ReaderFault::WordTooLong { place: 0 },
    );
    Ok(())
}

#[test]
fn texts(rt: HostRuntime) -> Result<(), Fail> {
    literal(&rt, b"''", Value::text(b""), 2)?;
    literal(&rt, b"'a'", Value::text(b"a"), 3)?;
    literal(&rt, b"' aB~'c", Value::text(b" aB~"), 6)?;
    literal(
        &rt,
        b"'0123456789abcdef'",
        Value::text(b"0123456789abcdef"),
        18,
    )?;
    let long = b"'0123456789abcdefg'";
    refused(&rt, long, 0, ReaderFault::WordTooLong { place: 0 });
    refused(&rt, b" 'abc", 0, ReaderFault::Byte { place: 1 });
    refused(&rt, b"'a\nb", 0, ReaderFault::Byte { place: 0 });
    refused(
        &rt,
        b"'ab\n0123456789abcdef\t'",
        0,
        ReaderFault::Byte { place: 3 },
    );
    Ok(())
}

#[test]
fn bytes_that_begin_no_word(rt: HostRuntime) {
    for b in [0u8, 13, 127, 255, b'"', b';', b'_'] {
        refused(&rt, &[b' ', b], 0, ReaderFault::Byte { place: 1 });
    }
    for b in [0u8, 9, 10, 13, 127, 255] {
        refused(
            &rt,
            &[b'\'', b'a', b, b'\''],
            0,
            ReaderFault::Byte { place: 2 },
        );
    }
}
