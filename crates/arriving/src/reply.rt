// The reply to a packet: the gathered chunks, and what is owed at their end.
ghost use Rattle.std.specs.Prelude.{◌≡◌};
ghost use Rattle.arriving.specs.Reply.{is_shutdown_sent};

use states::State;

pub fn is_shutdown_sent(s: State) -> bool
    ensures { result ≡ is_shutdown_sent s }
{
    matches!(s, State::ShutdownSent(_))
}
