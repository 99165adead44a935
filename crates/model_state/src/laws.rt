//! The laws of segments.

ghost use Rattle.std.specs.Prelude.{◌≡◌, ℕ, ◌≤◌, ◌+◌, ◌-◌, ◌∷◌, ◌++◌, [], List, length, Option, IsTrue};
ghost use Rattle.model_h1.specs.Setting.{Setting};
ghost use Rattle.model_h1.specs.Event.{Event, Outcome};
ghost use Rattle.model_h1.specs.Request.{Head};
ghost use Rattle.model_h1.specs.Parse.{run_between};
ghost use Rattle.model_h1.specs.Sums.{Step, Answered, step_written, written};
ghost use Rattle.model_h1.specs.Text.{chunk_sent, text, buffered};
ghost use Rattle.model_state.specs.Kept.{Kept};
ghost use Rattle.model_state.specs.Local.{allowed_by};
ghost use Rattle.model_state.specs.StandsFor.{StandsFor};
ghost use Rattle.model_state.specs.After.{marks_after};
ghost use Rattle.model_state.specs.Runs.{AreInOrder, IsFirstSegment, runs_behind};
ghost use Rattle.model_state.specs.Marks.{chunk_run, body_runs, front_of, step_runs, buffered_runs};

/// The first segment of what waits is all the bytes that are left of one piece of a body, where the first byte is that
/// piece's, and has else no byte of any piece.
pub fn the_first_segment_is_a_piece_or_none()
    ensures { (setting : Setting) (trace : List Step)
        → IsFirstSegment (buffered_runs setting trace) (buffered setting trace) (front_of setting trace) }
{}

/// How the runs that wait go on, by kinds of steps.
pub fn runs_go_on()
    ensures quiet { (setting : Setting) (s : Step) (before : List Step) → step_written s.outcome ≡ [] → step_runs setting before s.event s.outcome ≡ []
        → buffered_runs setting (s ∷ before) ≡ buffered_runs setting before }
    ensures added { (setting : Setting) (s : Step) (before : List Step) → step_written s.outcome ≡ []
        → buffered_runs setting (s ∷ before) ≡ buffered_runs setting before ++ runs_behind (length (written before)) (step_runs setting before s.event s.outcome) }
    ensures given { (setting : Setting) (s : Step) (before : List Step) → step_runs setting before s.event s.outcome ≡ []
        → buffered_runs setting (s ∷ before) ≡ runs_behind (length (step_written s.outcome)) (buffered_runs setting before) }
    ensures between { (w start len : ℕ) → w ≤ start → runs_behind w (run_between start (start + len)) ≡ run_between (start - w) (start - w + len) }
{}

/// Pieces stand in order in what goes out of them.
pub fn pieces_are_in_order()
    ensures { (place before : ℕ) (bytes : List ℕ) (h : Option Head) (a : Option Answered)
        → AreInOrder place (place + length (chunk_sent before bytes h a)) (chunk_run place before bytes h a) }
{}

/// The body bytes stand in order and apart in the text, and so do those that wait.
pub fn body_bytes_are_in_order()
    ensures all { (setting : Setting) (trace : List Step) → AreInOrder 0 (length (text setting trace)) (body_runs setting trace) }
    ensures waiting { (setting : Setting) (trace : List Step) → AreInOrder 0 (length (text setting trace) - length (written trace)) (buffered_runs setting trace) }
{}

/// What a connection keeps tells what an allowed event does to the runs of the bytes that wait, whatever its outcome.
pub fn marks_stand()
    ensures { (setting : Setting) (k : Kept) (trace : List Step) (event : Event) (o : Outcome) → StandsFor setting k trace → IsTrue (allowed_by setting k event)
        → marks_after k event o (buffered_runs setting trace) ≡ buffered_runs setting (record { event = event; outcome = o } ∷ trace) }
{}
