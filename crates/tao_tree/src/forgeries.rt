//! Answers that are altered on their way, as by a server that isn't honest.
ghost use Rattle.std.specs.Prelude.{◌≡◌};
ghost use Rattle.tao_tree.specs.Forging.{forged, xored_at};

/// Byte `at` of the path that answers call number `call` is xored with the mask. Where that call is a store or fails, or its path has no
/// such byte, nothing is.
#[derive(Clone, Copy, Debug, PartialEq, Eq)]
pub struct Forgery {
    pub call: u32,
    pub at: u32,
    pub mask: u8,
}

/// Alters the answer of a call.
pub(crate) fn forge_path(forgeries: &[Forgery], call: u64, path: &mut [u8])
    ensures { path.new ≡ forged forgeries.now call path.old }
{
    for f in forgeries {
        if u64::from(f.call) == call {
            xor_at(path, f.at as usize, f.mask);
        }
    }
}

fn xor_at(path: &mut [u8], at: usize, mask: u8)
    ensures { path.new ≡ xored_at path.old at mask }
{
    if at < path.len() {
        path[at] ^= mask;
    }
}
