//! Laws: a record that a proxy makes.
ghost use Rattle.tao_tables.specs.Proxies.{FollowsOn, OpensByLoad, OwesInTurn, ProxyGoesOn};

/// It stays one under each lawful event, if a write-back has what is held.
pub fn proxy_goes_on()
    ensures { ProxyGoesOn }
{}

/// A lawful record stays lawful with an event that may follow.
pub fn follows_on()
    ensures { FollowsOn }
{}

/// Only a Done that fills a period owes a write-back.
pub fn owes_in_turn()
    ensures { OwesInTurn }
{}

/// A tree that was loaded by the opening's words makes it open with its load.
pub fn opens_by_load()
    ensures { OpensByLoad }
{}
