//! A port over borrowed tables of maps.

ghost use Rattle.std.specs.Prelude.{ℕ, List};
ghost use Rattle.bpf_regions.specs.declared.asks.Ask.{Ask};
ghost use Rattle.bpf_tagged.specs.Took.{Answered};
ghost use Rattle.bpf_helpers.specs.Hooked.{Given, Held, IsFitting, Gives, Served};

use crate::worker::{WorkerState, WorkerView};
use bpf_regions::{Helper, MapOp};
use bpf_tagged::Port;

/// Answers a program's accesses from its worker's tables, with one access of the seat there; `now` with the clock,
/// `stations` with the number of associated stations, and `draw` with the draw word, which then becomes the next one.
/// It is made anew for each run, only of borrowed values, and allocates nothing.
#[derive(Drop)]
pub struct HookPort<'t, 's> {
    pub view: WorkerView<'t>,
    pub state: &'s mut WorkerState,
    pub ghost fitting: { IsFitting view.maps.now view.worker state.now.seats },
}

impl Port for HookPort<'_, '_> {
    ghost use Rattle.bpf_helpers.specs.Hooked.{shapes_of};
    ghost use Rattle.bpf_helpers.specs.HookPorts.{PortGives};

    ghost shapes = { λ p. shapes_of p.view.maps.now };

    ghost gives = { PortGives };

    fn access(&mut self, map: u32, word: u32, op: MapOp) -> u64 {
        let at = map as usize;
        let table = self.view.maps[at].table(self.view.worker);
        self.state.access(at, table, word, op)
    }

    fn helper(&mut self, helper: Helper) -> u64 {
        let clock = self.view.clock;
        match helper {
            Helper::Now => clock,
            Helper::Stations => u64::from(self.view.stations),
            Helper::Draw => self.state.drawn(),
        }
    }
}

/// For every list of queries answered from tables: the accesses are the seats' new accesses, each once, in order;
/// `now` and `stations` return the readings; the draws are consecutive draw words, from the held one on.
pub fn served_law()
    ensures served { (g : Given) (h h' : Held) (asks : List (Ask × ℕ)) →
        Answered (Gives g) h asks h' → Served g h asks h' }
{}
