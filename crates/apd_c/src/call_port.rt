//! The port of the calls that run programs.

use bpf_helpers::HookPort;
use bpf_regions::{Helper, MapOp};
use bpf_tagged::Port;

/// Answers a run as the port that it holds does. No other run has such a port, so `run` over it has one caller, into
/// which it is compiled.
#[derive(Drop)]
pub struct CallPort<'t, 's> {
    pub port: HookPort<'t, 's>,
}

impl Port for CallPort<'_, '_> {
    ghost use Rattle.bpf_helpers.specs.Hooked.{shapes_of};
    ghost use Rattle.apd_c.specs.Ports.{CallGives};

    ghost shapes = { λ p. shapes_of p.port.view.maps.now };

    ghost gives = { CallGives };

    #[inline(always)]
    fn access(&mut self, map: u32, word: u32, op: MapOp) -> u64 {
        self.port.access(map, word, op)
    }

    #[inline(always)]
    fn helper(&mut self, helper: Helper) -> u64 {
        self.port.helper(helper)
    }
}
