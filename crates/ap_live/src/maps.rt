//! Words of maps, for operators.

ghost use Rattle.std.specs.Prelude.{◌≡◌, ◌↔◌, IsTrue};
ghost use Rattle.bpf_regions.specs.declared.maps.MapOp.TheVariants.{Load, Store};
ghost use Rattle.bpf_regions.specs.declared.maps.Scope.TheVariants.{Shared, Worker};
ghost use Rattle.ap_tables.specs.Accesses.{Accesses, Sums};
ghost use Rattle.ap_tables.specs.Stocks.{Names};
ghost use Rattle.ap_live.specs.Tokens.{IsOperator};

use crate::live::LiveAp;
use crate::tokens::OperatorToken;
use ap_books::Ledgers;
use ap_locked::Journals;
use bpf_regions::Scope;

impl<B: Ledgers + Journals> LiveAp<B> {
    /// Whether there is a map of that number and scope that has this word.
    pub fn has_word(&self, scope: Scope, map: usize, word: u32) -> bool
        ensures { IsTrue result ↔ Names scope self.now.stock.maps map word }
    {
        self.tables.has_word(scope, map, word)
    }

    /// Stores a number in a word of a shared map, mod 2^(8 * width): one access in its legal history.
    /// It never blocks or allocates.
    pub fn store(&self, operator: &mut OperatorToken<B>, map: usize, word: u32, value: u64)
        requires own { IsOperator self.now operator.old }
        requires there { Names Shared self.now.stock.maps map word }
        ensures own { IsOperator self.now operator.new }
        ensures made { Accesses self.now.stock.maps operator.old.seats map word (Store value) 0
            operator.new.seats }
        ensures same { operator.new ≡ record operator.old { seats = operator.new.seats } }
    {
        self.tables.store(&mut operator.seats, map, word, value)
    }

    /// Loads a word of a shared map: one access in its legal history. It never blocks or allocates.
    pub fn read(&self, operator: &mut OperatorToken<B>, map: usize, word: u32) -> u64
        requires own { IsOperator self.now operator.old }
        requires there { Names Shared self.now.stock.maps map word }
        ensures own { IsOperator self.now operator.new }
        ensures made { Accesses self.now.stock.maps operator.old.seats map word Load result
            operator.new.seats }
        ensures same { operator.new ≡ record operator.old { seats = operator.new.seats } }
    {
        self.tables.read(&mut operator.seats, map, word)
    }

    /// Loads a word of a worker's map once from each worker's table, by worker number, and returns the
    /// sum mod 2^(8 * width). It never blocks or allocates.
    pub fn sum(&self, operator: &mut OperatorToken<B>, map: usize, word: u32) -> u64
        requires own { IsOperator self.now operator.old }
        requires there { Names Worker self.now.stock.maps map word }
        ensures own { IsOperator self.now operator.new }
        ensures made { Sums self.now.stock.maps operator.old.seats map word result
            operator.new.seats }
        ensures same { operator.new ≡ record operator.old { seats = operator.new.seats } }
    {
        self.tables.sum(&mut operator.seats, map, word)
    }
}
