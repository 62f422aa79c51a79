// Replays the trace on standard input.
#![tactic(auto)]

use std::io;

fn main(rt: HostRuntime) -> io::Result<()> {
    playback::replay_from(&mut rt.stdin(), &mut rt.stdout(), &mut rt.stderr())?;
    Ok(())
}
