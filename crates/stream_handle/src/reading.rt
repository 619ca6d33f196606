//! The values of a sink, handed over, and what each task waits for.
ghost use Rattle.std.specs.Prelude.{◌≡◌, ◌≤◌, ◌<◌, ◌++◌, length, drop, IfOk, IfErr, OnErr};
ghost use Rattle.graph_commands.specs.Explained.{AreFurtherLines};
ghost use Rattle.stream_lists.specs.Lists.{sinks_of};
ghost use Rattle.stream_handle.specs.Runs.{HandsOver, LacksRoom};

use graph_commands::stall_told;
use std::alloc::Global;
use stream_job::Stream;

/// Writes these values in the first places. What stands behind them stays.
pub(crate) fn write_first<T: Copy>(out: &mut [T], values: &[T])
    requires { length values.now ≤ length out.old }
    ensures { out.new ≡ values.now ++ drop (length values.now) out.old }
{
    out[..values.len()].copy_from_slice(values);
}

/// Writes the values of a sink in the first places, forgets them, and answers how many they are;
/// or, where they are more than there are places, how many they are, and forgets none.
pub(crate) fn hand_over(run: &mut Stream, sink: usize, out: &mut [i64]) -> Result<usize, usize>
    requires { sink < length (sinks_of run.old.job) }
    ensures over { IfOk result (HandsOver sink out.old out.new run.old run.new) }
    ensures room { IfErr result (LacksRoom sink (length out.old) run.old) }
    ensures same { OnErr result (run.new ≡ run.old) }
    ensures unwritten { OnErr result (out.new ≡ out.old) }
{
    let values = run.values(sink);
    let count = values.len();
    if count > out.len() {
        return Err(count);
    }
    write_first(out, values);
    run.forget(sink);
    Ok(count)
}

/// What each task that is left waits for, as lines for a person; nothing where memory ran out.
pub(crate) fn waits_told(alloc: Global, run: &Stream) -> Vec<u8>
    ensures { AreFurtherLines result.items }
{
    match run.stands(alloc) {
        Ok(stands) => stall_told(alloc, run.job(), &stands),
        Err(_) => Vec::new(alloc),
    }
}
