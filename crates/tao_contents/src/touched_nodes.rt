//! Laws: which nodes are recent after a fetch.
ghost use Rattle.tao_contents.specs.TouchedNodes.{FetchTouchesPath};

/// A fetch makes the nodes of its path recent, and no others.
pub fn fetch_touches_path()
    ensures { FetchTouchesPath }
{}
