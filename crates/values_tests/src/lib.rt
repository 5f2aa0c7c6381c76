// Examples of what the values of cells do, seen from outside their crate: through the bytes that
// they are written as, and through comparisons.
#![tactic(auto)]

#[cfg(test)]
mod tests {
    use std::test::Fail;
    use values::area::WrongLength;
    use values::kinds::{ColumnType, Comparison, DataFault, Operator, Sign, Truth};
    use values::name::Name;
    use values::value::Value;

    // A value or a name that was wanted was not given.
    #[derive(Clone, Copy, Debug)]
    struct Refused;

    fn outcome(res: Result<Value, DataFault>) -> Result<[u8; 17], DataFault> {
        Ok(res?.to_bytes())
    }

    fn integer_outcome(res: Result<i32, DataFault>) -> Result<[u8; 17], DataFault> {
        Ok(Value::integer(res?).to_bytes())
    }

    #[test]
    fn integers_at_the_edges(rt: HostRuntime) {
        let cases = [
            (i32::MAX, Operator::Add, 1, Err(DataFault::IntegerRange)),
            (i32::MAX, Operator::Add, 0, Ok(i32::MAX)),
            (
                i32::MIN,
                Operator::Subtract,
                1,
                Err(DataFault::IntegerRange),
            ),
            (
                65536,
                Operator::Multiply,
                32768,
                Err(DataFault::IntegerRange),
            ),
            (-65536, Operator::Multiply, 32768, Ok(i32::MIN)),
            (-7, Operator::Divide, 2, Ok(-3)),
            (i32::MIN, Operator::Divide, -1, Err(DataFault::IntegerRange)),
            (1, Operator::Divide, 0, Err(DataFault::ZeroDivisor)),
        ];
        for (a, operator, b, wanted) in cases {
            let got = Value::integer(a).calculate(operator, Value::integer(b));
            assert_eq!(rt; outcome(got), integer_outcome(wanted));
        }
        let least = Value::integer(i32::MIN);
        assert_eq!(rt;
            outcome(least.with_sign(Sign::Minus)),
            Err(DataFault::IntegerRange)
        );
        assert_eq!(rt; outcome(least.with_sign(Sign::Plus)), Ok(least.to_bytes()));
        assert_eq!(rt;
            outcome(Value::integer(5).with_sign(Sign::Minus)),
            integer_outcome(Ok(-5))
        );
    }

    #[test]
    fn nulls_come_before_faults(rt: HostRuntime) {
        let null = Value::null();
        let zero = Value::integer(0);
        let nothing = Ok(null.to_bytes());
        assert_eq!(rt; outcome(null.calculate(Operator::Divide, zero)), nothing);
        assert_eq!(rt; outcome(zero.calculate(Operator::Divide, null)), nothing);
        assert_eq!(rt; outcome(null.with_sign(Sign::Minus)), nothing);
    }

    #[test]
    fn reals_at_the_edges(rt: HostRuntime) -> Result<(), Fail> {
        let cases = [
            (1e308, Operator::Multiply, 10.0, Err(DataFault::NotFinite)),
            (-1e308, Operator::Add, -1e308, Err(DataFault::NotFinite)),
            (1.0, Operator::Divide, -0.0, Err(DataFault::ZeroDivisor)),
            (0.1, Operator::Add, 0.2, Ok(0.30000000000000004)),
            (-1.0, Operator::Multiply, 0.0, Ok(0.0)),
            (5e-324, Operator::Divide, 2.0, Ok(0.0)),
            (1.0, Operator::Subtract, 0.75, Ok(0.25)),
        ];
        for (x, operator, y, wanted) in cases {
            let left = Value::real(x).ok_or(Refused)?;
            let right = Value::real(y).ok_or(Refused)?;
            let got = outcome(left.calculate(operator, right));
            match wanted {
                Ok(z) => assert_eq!(rt; got, Ok(Value::real(z).ok_or(Refused)?.to_bytes())),
                Err(fault) => assert_eq!(rt; got, Err(fault)),
            }
        }
        assert!(rt; Value::real(f64::INFINITY).is_none());
        assert!(rt; Value::real(f64::NAN).is_none());
        let zero = Value::real(0.0).ok_or(Refused)?;
        let minus_zero = Value::real(-0.0).ok_or(Refused)?;
        assert_eq!(rt; minus_zero.to_bytes(), zero.to_bytes());
        assert_eq!(rt; outcome(zero.with_sign(Sign::Minus)), Ok(zero.to_bytes()));
        Ok(())
    }

    #[test]
    fn texts_are_compared_by_bytes(rt: HostRuntime) -> Result<(), Fail> {
        let a = Value::text(b"a").ok_or(Refused)?;
        let filled = Value::text(b"a ").ok_or(Refused)?;
        let marked = Value::text(b"a!").ok_or(Refused)?;
        let capital = Value::text(b"Z").ok_or(Refused)?;
        let long = Value::text(b"aaaaaaaaaaaaaaa~").ok_or(Refused)?;
        let cases = [
            (a, Comparison::Equal, filled, Truth::True),
            (a, Comparison::Less, marked, Truth::True),
            (capital, Comparison::Less, a, Truth::True),
            (long, Comparison::GreaterOrEqual, a, Truth::True),
            (a, Comparison::LessOrEqual, capital, Truth::False),
            (a, Comparison::NotEqual, filled, Truth::False),
            (a, Comparison::Equal, Value::null(), Truth::Unknown),
            (
                Value::integer(1),
                Comparison::Greater,
                Value::integer(-1),
                Truth::True,
            ),
        ];
        for (left, comparison, right, wanted) in cases {
            assert_eq!(rt; left.compare(comparison, right), wanted);
        }
        assert!(rt; Value::text(b"aaaaaaaaaaaaaaaaa").is_none());
        assert!(rt; Value::text(&[31]).is_none());
        assert!(rt; Value::text(&[127]).is_none());
        Ok(())
    }

    #[test]
    fn truths_of_three_values(rt: HostRuntime) {
        let f = Truth::False;
        let u = Truth::Unknown;
        let t = Truth::True;
        // The two truths, what both give, and what either gives.
        let cases = [
            (f, f, f, f),
            (f, u, f, u),
            (f, t, f, t),
            (u, f, f, u),
            (u, u, u, u),
            (u, t, u, t),
            (t, f, f, t),
            (t, u, u, t),
            (t, t, t, t),
        ];
        for (p, q, both, either) in cases {
            assert_eq!(rt; p.and(q), both);
            assert_eq!(rt; p.or(q), either);
        }
        assert_eq!(rt; !f, t);
        assert_eq!(rt; !u, u);
        assert_eq!(rt; !t, f);
    }

    #[test]
    fn cells_are_read_back(rt: HostRuntime) -> Result<(), Fail> {
        let smallest = Value::real(5e-324).ok_or(Refused)?;
        let text = Value::text(b"it's ~").ok_or(Refused)?;
        let cases = [
            (Value::null(), *b"\x10\0\0\0\0\0\0\0\0\0\0\0\0\0\0\0\0"),
            (
                Value::integer(-2),
                *b"\x11\xff\xff\xff\xfe\0\0\0\0\0\0\0\0\0\0\0\0",
            ),
            (smallest, *b"\x12\0\0\0\0\0\0\0\x01\0\0\0\0\0\0\0\0"),
            (text, *b"\x13it's ~          "),
        ];
        for (value, wanted) in cases {
            assert_eq!(rt; value.to_bytes(), wanted);
            let mut area = [0xff; 17];
            assert_eq!(rt; value.write(&mut area), Ok(()));
            assert_eq!(rt; area, wanted);
            let again = Value::read(&wanted).ok_or(Refused)?;
            assert_eq!(rt; again.to_bytes(), wanted);
        }
        let mut short = [7; 16];
        assert_eq!(rt; text.write(&mut short), Err(WrongLength));
        assert_eq!(rt; short, [7; 16]);
        let zero = Value::read(b"\x12\x80\0\0\0\0\0\0\0\0\0\0\0\0\0\0\0").ok_or(Refused)?;
        assert_eq!(rt; zero.to_bytes(), *b"\x12\0\0\0\0\0\0\0\0\0\0\0\0\0\0\0\0");
        Ok(())
    }

    #[test]
    fn bytes_that_are_no_cell(rt: HostRuntime) {
        // A command, and the index from which its operand is filling.
        let fillings = [(0x10, 1), (0x11, 5), (0x12, 9)];
        for (command, start) in fillings {
            for i in start..17 {
                let mut bytes = [0; 17];
                bytes[0] = command;
                bytes[i] = 1;
                assert!(rt; Value::read(&bytes).is_none());
            }
        }
        let refused = [
            b"\x12\x7f\xf0\0\0\0\0\0\0\0\0\0\0\0\0\0\0",
            b"\x12\xff\xf0\0\0\0\0\0\0\0\0\0\0\0\0\0\0",
            b"\x12\x7f\xf8\0\0\0\0\0\0\0\0\0\0\0\0\0\0",
            b"\x12\xff\xf0\0\0\0\0\0\x01\0\0\0\0\0\0\0\0",
            b"\x13a\x1f              ",
            b"\x13a              \x7f",
            b"\x13a              \0",
            b"\x0f\0\0\0\0\0\0\0\0\0\0\0\0\0\0\0\0",
            b"\x14\0\0\0\0\0\0\0\0\0\0\0\0\0\0\0\0",
        ];
        for bytes in refused {
            assert!(rt; Value::read(bytes).is_none());
        }
        assert!(rt; Value::read(&[]).is_none());
        assert!(rt; Value::read(&[0x10; 1]).is_none());
        assert!(rt; Value::read(b"\x13a               ").is_some());
        assert!(rt; Value::read(b"\x13a              ").is_none());
        assert!(rt; Value::read(b"\x13a                ").is_none());
    }

    #[test]
    fn columns_and_what_they_hold(rt: HostRuntime) -> Result<(), Fail> {
        let text = Value::text(b"").ok_or(Refused)?;
        let real = Value::real(1.5).ok_or(Refused)?;
        let held = [Value::integer(1), real, text];
        for (i, byte) in [1, 2, 3].iter().enumerate() {
            let column = ColumnType::try_from(*byte)?;
            assert_eq!(rt; u8::from(column), *byte);
            assert!(rt; Value::null().fits(column) && column.accepts_command(0x10));
            for (k, value) in held.iter().enumerate() {
                assert_eq!(rt; value.fits(column), i == k);
                assert_eq!(rt; column.accepts_command(value.to_bytes()[0]), i == k);
            }
        }
        assert!(rt; ColumnType::try_from(0).is_err());
        assert!(rt; ColumnType::try_from(4).is_err());
        Ok(())
    }

    fn is_name(bytes: &[u8]) -> bool {
        Name::new(bytes).is_some()
    }

    #[test]
    fn names_of_tables_and_columns(rt: HostRuntime) -> Result<(), Fail> {
        assert!(rt; is_name(b"a"));
        assert!(rt; is_name(b"x_9"));
        assert!(rt; is_name(b"selected"));
        assert!(rt; is_name(b"abcdefghijklmnop"));
        assert!(rt; !is_name(b"abcdefghijklmnopq"));
        assert!(rt; !is_name(b""));
        assert!(rt; !is_name(b"select"));
        assert!(rt; !is_name(b"not"));
        assert!(rt; !is_name(b"intersection"));
        assert!(rt; !is_name(b"Table"));
        assert!(rt; !is_name(b"tablE"));
        assert!(rt; !is_name(b"1st"));
        assert!(rt; !is_name(b"_x"));
        assert!(rt; !is_name(b"a b"));
        let name = Name::new(b"price").ok_or(Refused)?;
        assert_eq!(rt; name.to_bytes(), *b"price           ");
        let printed = format!(in rt.alloc(); "{name}: {}", ColumnType::Integer)?;
        assert_eq!(rt; printed.as_str(), "price: integer");
        assert!(rt; name == Name::new(b"price  ").ok_or(Refused)?);
        assert!(rt; name != Name::new(b"prices").ok_or(Refused)?);
        assert!(rt; name != Name::new(b"price_of_a_litre").ok_or(Refused)?);
        Ok(())
    }
}
