//! The laws of taking: what comes next in the bytes, and then the rest, is what is read, whatever follows.

ghost use Rattle.std.specs.Prelude.{◌≡◌, ℕ, ◌<◌, List, ◌++◌, length};
ghost use Rattle.model_h1.specs.Place.{Place, after};
ghost use Rattle.model_h1.specs.Reading.{with_trailers, read};
ghost use Rattle.model_h1.specs.TakeNext.{chunk, waits, take_next, says};

/// Taking what comes next changes nothing of what is read.
pub fn taking_is_reading()
    ensures { (place : Place) (bytes z : List ℕ)
        → read place (bytes ++ z) ≡ with_trailers (take_next place bytes).trailers (says (take_next place bytes).next z) }
{}

/// Where nothing comes, all bytes lead to the place that is told.
pub fn waiting_leads_on()
    ensures { (place next : Place) (bytes : List ℕ) → (take_next place bytes).next ≡ waits next → next ≡ after place bytes }
{}

/// Bytes of a chunk are some, and the bytes up to their end lead to the place that is told.
pub fn a_chunk_leads_on()
    ensures some { (place next : Place) (bytes given behind : List ℕ) → (take_next place bytes).next ≡ chunk given next behind
        → 0 < length given }
    ensures place { (place next : Place) (bytes given behind : List ℕ) → (take_next place bytes).next ≡ chunk given next behind
        → (front : List ℕ) × (bytes ≡ front ++ behind) × (next ≡ after place front) }
{}
