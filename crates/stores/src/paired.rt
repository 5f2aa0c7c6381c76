ghost use Rattle.std.specs.Prelude.{◌≡◌};
ghost use Rattle.std.proofs.Common.{sym, ap₂, ◌∙◌};
ghost use Rattle.std.specs.Option.{option_map};
ghost use Rattle.batches.specs.Columns.{heading_of};
ghost use Rattle.stores.specs.Agreeing.{EqualByName, EqualReflexive, EqualSymmetric, EqualTransitive, LikeByName, LikeGivesEqual, LikeReflexive, LikeSymmetric, LikeTransitive};
ghost use Rattle.stores.specs.Meaning.{column_of, count_of, value_of};
ghost use Rattle.stores.specs.PairLaws.{PairAlike, PairOfEquals, PairSingle, PairUnlike};
ghost use Rattle.stores.specs.Paired.{Narrow, join_count, join_tables, pair_number, pair_stands, paired, same_columns, paired_table};
ghost use Rattle.values.specs.Cells.{cell_of};
ghost use Rattle.stores.specs.Pairing.{paired_lawful, lookup_paired};
ghost use Rattle.stores.specs.PairNumbers.{numbers_named, numbers_known, numbers_distinct};

use crate::names::Names;
use crate::pair::{Pair, PairNumber};
use crate::rows::counted;
use crate::store::{Listed, Store};
use batches::columns::Column;
use values::name::Name;
use values::value::Value;

impl<A, B> Pair<A, B> {
    // The two stores as one. The laws of equal tables, of like order and of what a pair tells under
    // a name stand on this contract, since this is the call that takes two stores.
    pub fn new(first: A, second: B) -> Pair<A, B>
        ensures one { result.first ≡ first }
        ensures other { result.second ≡ second }
        ensures equal_reflexive { EqualReflexive }
        ensures equal_symmetric { EqualSymmetric }
        ensures equal_transitive { EqualTransitive }
        ensures like_reflexive { LikeReflexive }
        ensures like_symmetric { LikeSymmetric }
        ensures like_transitive { LikeTransitive }
        ensures like_gives_equal { LikeGivesEqual }
        ensures equal_by_name { EqualByName }
        ensures like_by_name { LikeByName }
        ensures single { PairSingle }
        ensures unlike { PairUnlike }
        ensures alike { PairAlike }
        ensures of_equals { PairOfEquals }
    {
        Pair { first, second }
    }
}

// A table of a store, by its number there.
#[derive(Drop)]
struct TableOf<'a, S: Store> {
    store: &'a S,
    number: S::Number,
}

impl<'a, S: Store> TableOf<'a, S> {
    fn new(store: &'a S, number: S::Number) -> TableOf<'a, S>
        ensures { S.Store.stands result.store.now result.number ≡ S.Store.stands store.now number }
    {
        TableOf { store, number }
    }

    fn column(&self, i: usize) -> Option<Column>
        ensures { option_map heading_of result ≡ column_of (S.Store.stands self.now.store.now self.now.number) i }
    {
        self.store.column(self.number, i)
    }

    fn count(&self) -> Option<usize>
        ensures { result ≡ count_of (S.Store.stands self.now.store.now self.now.number) }
    {
        self.store.count(self.number)
    }

    fn cell(&self, row: usize, column: usize) -> Option<Value>
        ensures { option_map cell_of result ≡ value_of (S.Store.stands self.now.store.now self.now.number) row column }
    {
        self.store.cell(self.number, row, column)
    }
}

// Whether two tables have the same columns. A lawful table has at most eight, so that the first
// eight positions tell.
fn same_columns<A: Store, B: Store>(a: TableOf<A>, b: TableOf<B>) -> bool
    requires { (Narrow (A.Store.stands a.store.now a.number)) × (Narrow (B.Store.stands b.store.now b.number)) }
    ensures { result ≡ same_columns (A.Store.stands a.entry.store.now a.entry.number) (B.Store.stands b.entry.store.now b.entry.number) }
{
    (0..8).all(|i| a.column(i) == b.column(i))
}

// How many rows there are together; none where either is none, or where there are too many for a
// table.
#[tactic(auto, unfolding(crate::specs::Paired::join_count))]
fn count_together(m: Option<usize>, n: Option<usize>) -> Option<usize>
    ensures { result ≡ join_count m n }
{
    counted(m?.checked_add(n?)?)
}

// A cell of two tables taken together: the rows of the second come after those of the first.
#[tactic(auto, using(crate::proofs::JoinedRows::cell_uncounted, crate::proofs::JoinedRows::cell_first, crate::proofs::JoinedRows::cell_second), unfolding(crate::specs::Paired::join_count))]
fn cell_together<A: Store, B: Store>(
    a: TableOf<A>,
    b: TableOf<B>,
    row: usize,
    column: usize,
) -> Option<Value>
    ensures { option_map cell_of result ≡ value_of (join_tables (A.Store.stands a.entry.store.now a.entry.number) (B.Store.stands b.entry.store.now b.entry.number)) row column }
{
    let count = a.count()?;
    let _all = count_together(Some(count), b.count())?;
    if row < count {
        a.cell(row, column)
    } else {
        b.cell(row - count, column)
    }
}

impl<A: Store, B: Store> Store for Pair<A, B> {
    type Number = PairNumber<A::Number, B::Number>;

    ghost told = { λ p. paired (A.Store.told p.first) (B.Store.told p.second) };

    ghost number = { λ p n. pair_number (A.Store.stands p.first) (B.Store.stands p.second) (A.Store.number p.first n) (B.Store.number p.second n) };

    ghost stands = { λ p k. pair_stands (A.Store.stands p.first) (B.Store.stands p.second) k };

    ghost lawful = { λ s. paired_lawful (A.Store.told s.first) (B.Store.told s.second) (A.Store.lawful s.first) (B.Store.lawful s.second) };

    ghost named = { λ s n.
        numbers_named (A.Store.stands s.first) (B.Store.stands s.second) (A.Store.number s.first n) (B.Store.number s.second n) (A.Store.known s.first n) ∙
        (ap₂ paired_table (A.Store.named s.first n) (B.Store.named s.second n) ∙
        sym (lookup_paired (A.Store.told s.first) (B.Store.told s.second) n)) };

    ghost known = { λ s n k p. numbers_known (A.Store.stands s.first) (B.Store.stands s.second) (A.Store.number s.first n) (B.Store.number s.second n) (A.Store.known s.first n) (B.Store.known s.second n) k p };

    ghost distinct = { λ s m n k p q. numbers_distinct (A.Store.stands s.first) (B.Store.stands s.second) (A.Store.number s.first m) (A.Store.number s.first n) (B.Store.number s.second m) (B.Store.number s.second n) (A.Store.distinct s.first m n) (B.Store.distinct s.second m n) k p q };

    #[tactic(auto, unfolding(crate::specs::Paired::pair_number))]
    fn find(&self, name: Name) -> Option<PairNumber<A::Number, B::Number>> {
        match (self.first.find(name), self.second.find(name)) {
            (None, None) => None,
            (None, Some(n)) => Some(PairNumber::Second(n)),
            (Some(m), None) => Some(PairNumber::First(m)),
            (Some(m), Some(n)) => {
                if same_columns(TableOf::new(&self.first, m), TableOf::new(&self.second, n)) {
                    Some(PairNumber::Both(m, n))
                } else {
                    Some(PairNumber::First(m))
                }
            }
        }
    }

    #[tactic(auto, using(crate::proofs::JoinedRows::column_joined), unfolding(crate::specs::Paired::pair_stands))]
    fn column(&self, table: PairNumber<A::Number, B::Number>, i: usize) -> Option<Column> {
        match table {
            PairNumber::First(m) => self.first.column(m, i),
            PairNumber::Second(n) => self.second.column(n, i),
            PairNumber::Both(m, _) => self.first.column(m, i),
        }
    }

    #[tactic(auto, using(crate::proofs::JoinedRows::count_joined), unfolding(crate::specs::Paired::pair_stands))]
    fn count(&self, table: PairNumber<A::Number, B::Number>) -> Option<usize> {
        match table {
            PairNumber::First(m) => self.first.count(m),
            PairNumber::Second(n) => self.second.count(n),
            PairNumber::Both(m, n) => count_together(self.first.count(m), self.second.count(n)),
        }
    }

    #[tactic(auto, using(crate::proofs::PairFound::stands_both), unfolding(crate::specs::Paired::pair_stands))]
    fn cell(
        &self,
        table: PairNumber<A::Number, B::Number>,
        row: usize,
        column: usize,
    ) -> Option<Value> {
        match table {
            PairNumber::First(m) => self.first.cell(m, row, column),
            PairNumber::Second(n) => self.second.cell(n, row, column),
            PairNumber::Both(m, n) => cell_together(
                TableOf::new(&self.first, m),
                TableOf::new(&self.second, n),
                row,
                column,
            ),
        }
    }
}

// A name of the first store's is asked for once. Those of the second come behind them, so for one of
// these all of the first's are passed over.
impl<A: Listed, B: Listed> Listed for Pair<A, B> {
    fn name(&self, place: usize) -> Option<Name> {
        if let Some(name) = self.first.name(place) {
            return Some(name);
        }
        let own = Names::new(&self.first);
        let others = Names::new(&self.second).filter(|name| self.first.find(*name).is_none());
        own.chain(others).nth(place)
    }
}
