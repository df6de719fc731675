//! One request, as the server sees it.
use tao_base::Numbers;

/// A request of the trace: load so many nodes; fetch number and leaf; store version, first nonce and nodes; the same store
/// sent again; fetch all paths at the close.
#[derive(Debug, Drop)]
pub enum Request {
    Load(u32),
    Fetch(u64, u32),
    Store(u32, u64, Numbers),
    Again(u32, u64, Numbers),
    Scan,
}
