//! A port between whose accesses another worker stores.

ghost use Rattle.std.specs.Prelude.{◌<◌, map, slice_get};
ghost use Rattle.bpf_model.specs.Run.{words_in};

use bpf_helpers::HookPort;
use bpf_regions::{Helper, MapOp};
use bpf_tagged::Port;

/// After the first access, the other port stores the number in word 0 of map 0.
#[derive(Drop)]
pub struct Interrupted<'t, 's, 'u, 'o> {
    pub port: HookPort<'t, 's>,
    pub other: HookPort<'u, 'o>,
    pub number: Option<u64>,
    pub ghost word: { 0 < words_in (slice_get (map (λ m. m.shape) other.view.maps.now) 0) },
}

impl Port for Interrupted<'_, '_, '_, '_> {
    ghost use Rattle.bpf_helpers.specs.Hooked.{shapes_of};

    ghost shapes = { λ p. shapes_of p.port.view.maps.now };

    // the answers are unconstrained
    ghost gives = { λ p ask answer q. Unit {0} };

    fn access(&mut self, map: u32, word: u32, op: MapOp) -> u64 {
        let answer = self.port.access(map, word, op);
        if let Some(number) = self.number {
            self.other.access(0, 0, MapOp::Store(number));
            self.number = None;
        }
        answer
    }

    fn helper(&mut self, helper: Helper) -> u64 {
        self.port.helper(helper)
    }
}
