//! Limits, by their numbers. The functions do nothing: each stands for its statement.
ghost use Rattle.std.specs.Prelude.{◌≡◌};
ghost use Rattle.link_ws.specs.declared.tcp_door.TheConstants.{MAX_STRAYS, PATIENCE};
ghost use Rattle.link_ws.specs.declared.ws_link.TheConstants.{MAX_MESSAGE};

/// How many bytes a message that comes may have.
pub fn largest_message()
    ensures { MAX_MESSAGE ≡ 65536 }
{}

/// How many programs in a row may connect and ask for no link.
pub fn most_strays()
    ensures { MAX_STRAYS ≡ 64 }
{}

/// How many seconds a program has to ask for a link, or to answer.
pub fn patience()
    ensures { PATIENCE ≡ 10 }
{}
