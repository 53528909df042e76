// What a session stands for after each of its calls.
ghost use Rattle.flash_session.specs.Laws.{ANewSessionStandsForNothing, AFeedGoesOn, AReadGoesOn, AnAskGoesOn};
ghost use Rattle.flash_session.specs.Laws.{AnAskIsTheNextStep, StepsAreCounted, StepsComeInOrder, AnAnswerGoesOn, ASendGoesOn, AllIsSaid};
ghost use Rattle.flash_session.specs.PieceLaws.{PiecesAreTheReplies, PiecesGoOn, ANextPieceStays, AReadHoldsAPiece, AnAnswerHoldsAPiece, NoPieceIsNextAtAnAsk};

/// A session that was fed nothing stands for no bytes, no answers and no bytes that were sent.
pub fn a_new_session_stands_for_nothing()
    ensures { ANewSessionStandsForNothing }
{}

/// A session that is fed stands for the longer bytes.
pub fn a_feed_goes_on()
    ensures { AFeedGoesOn }
{}

/// A session that reads a front at once stands for the same.
pub fn a_read_goes_on()
    ensures { AReadGoesOn }
{}

/// A session that asks a step stands for the same.
pub fn an_ask_goes_on()
    ensures { AnAskGoesOn }
{}

/// The step at a session's front is the next one of all that its bytes ask: that after those that were answered.
pub fn an_ask_is_the_next_step()
    ensures { AnAskIsTheNextStep }
{}

/// The number of a session's last step counts those that were answered, and the one that awaits its answer.
pub fn steps_are_counted()
    ensures { StepsAreCounted }
{}

/// Where each step had memory, the steps so far are the first of those that the commands ask, in order: as many as were
/// answered, and the one that is next.
pub fn steps_come_in_order()
    ensures { StepsComeInOrder }
{}

/// A session that is told an answer stands for the longer answers.
pub fn an_answer_goes_on()
    ensures { AnAnswerGoesOn }
{}

/// A session of which bytes were sent stands for the longer bytes that were sent.
pub fn a_send_goes_on()
    ensures { ASendGoesOn }
{}

/// Where a session has nothing to send and no whole front, each step that its bytes ask was answered, all replies were
/// sent, and its place is where the bytes end.
pub fn all_is_said()
    ensures { AllIsSaid }
{}

/// The pieces of the replies, one after the other, are the replies.
pub fn pieces_are_the_replies()
    ensures { PiecesAreTheReplies }
{}

/// More commands and more answers add pieces behind those that are there.
pub fn pieces_go_on()
    ensures { PiecesGoOn }
{}

/// The piece that is next stays it where more bytes are given.
pub fn a_next_piece_stays()
    ensures { ANextPieceStays }
{}

/// A session that had nothing to send and reads a front at once has the next piece to send, if anything.
pub fn a_read_holds_a_piece()
    ensures { AReadHoldsAPiece }
{}

/// A session that had nothing to send and is told an answer has the next piece to send, if anything.
pub fn an_answer_holds_a_piece()
    ensures { AnAnswerHoldsAPiece }
{}

/// Where a session has nothing to send and a step is next, no piece of its replies is, whatever bytes come.
pub fn no_piece_is_next_at_an_ask()
    ensures { NoPieceIsNextAtAnAsk }
{}
