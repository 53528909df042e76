// The law over every script. The function's contract is the law; its body calls the laws that the law rests on, and does
// nothing.
ghost use Rattle.flash_trace.specs.Ends.{EveryTraceIsRight};

use flash_play::every_play_is_right;
use flash_script::{each_line_is_read, each_session_has_a_seat};

/// Every script without a bad line makes such a run.
pub fn every_trace_is_right()
    ensures { EveryTraceIsRight }
{
    every_play_is_right();
    each_line_is_read();
    each_session_has_a_seat();
}
