//! Worked examples: what small exchanges make of the members' rows.

ghost use Rattle.std.specs.Prelude.{◌≡◌, ◌∷◌, ◌++◌, [], ℕ, List, codes, Some, None, true, false, replicate};
ghost use Rattle.model_h1.specs.Frame as frames;
ghost use Rattle.model_h1.specs.Event as on;
ghost use Rattle.model_rooms.specs.Room.{room_of};
ghost use Rattle.model_rooms.specs.Member.{Member, is_in, kept, leaves_with, put, invalid_close, policy_close, size_close};
ghost use Rattle.model_rooms.specs.Seen.{Seen, row_of};
ghost use Rattle.model_rooms.specs.Due.{due, sent_to};
ghost use Rattle.model_rooms.specs.Laws.Examples.{turn, three, together, speaks, sends};

/// A room is the path of the target: without its query, and of an absolute form too.
pub fn rooms_of_targets()
    ensures query { room_of (codes "/r?x") ≡ codes "/r" }
    ensures absolute { room_of (codes "http://h:80/r?x") ≡ codes "/r" }
    ensures no_path { room_of (codes "http://h") ≡ codes "/" }
    ensures authority { room_of (codes "h:80") ≡ [] }
{}

/// The others of the room hear a text; its sender doesn't, nor does another room.
pub fn a_text_is_heard()
    ensures { let seen : List Seen = speaks 0 (frames.text (codes "a")) ∷ three in
        ((row_of 0 seen).waiting ≡ [])
        × ((row_of 1 seen).waiting ≡ frames.text (codes "a") ∷ [])
        × ((row_of 2 seen).waiting ≡ []) }
{}

/// What is sent leaves the list, and both are what is due.
pub fn a_text_is_sent()
    ensures { let seen : List Seen = sends 1 (frames.text (codes "a")) ∷ speaks 0 (frames.text (codes "b")) ∷ speaks 0 (frames.text (codes "a")) ∷ three in
        (sent_to 1 seen ≡ frames.text (codes "a") ∷ [])
        × ((row_of 1 seen).waiting ≡ frames.text (codes "b") ∷ [])
        × (due 1 seen ≡ frames.text (codes "a") ∷ frames.text (codes "b") ∷ []) }
{}

/// A message in fragments is heard once its last one came, and whole: what another one said in between stands before it.
pub fn fragments_are_heard_together()
    ensures { let begun : List Seen = speaks 0 (frames.first_text (codes "a")) ∷ together in
        let between : List Seen = speaks 2 (frames.text (codes "b")) ∷ begun in
        let ended : List Seen = speaks 0 (frames.last (codes "c")) ∷ between in
        ((row_of 1 begun).waiting ≡ [])
        × ((row_of 1 ended).waiting ≡ frames.text (codes "b") ∷ frames.first_text (codes "a") ∷ frames.last (codes "c") ∷ []) }
{}

/// A fragment may end inside a character: text is judged as a whole.
pub fn a_character_in_two_fragments()
    ensures { let begun : List Seen = speaks 0 (frames.first_text (195 ∷ [])) ∷ three in
        ((row_of 1 (speaks 0 (frames.last (164 ∷ [])) ∷ begun)).waiting ≡ frames.first_text (195 ∷ []) ∷ frames.last (164 ∷ []) ∷ [])
        × ((row_of 1 (speaks 0 (frames.last (97 ∷ [])) ∷ begun)).waiting ≡ [])
        × ((row_of 0 (speaks 0 (frames.last (97 ∷ [])) ∷ begun)).waiting ≡ invalid_close ∷ []) }
{}

/// Text that isn't UTF-8 is said to nobody, and its sender leaves; binary isn't judged.
pub fn text_that_is_not_utf8()
    ensures { let wrong : List Seen = speaks 0 (frames.text (255 ∷ [])) ∷ three in
        ((row_of 1 wrong).waiting ≡ [])
        × ((row_of 0 wrong).waiting ≡ invalid_close ∷ [])
        × (is_in (row_of 0 wrong) ≡ false)
        × ((row_of 1 (speaks 0 (frames.binary (255 ∷ [])) ∷ three)).waiting ≡ frames.binary (255 ∷ []) ∷ []) }
{}

/// A Ping goes back as a Pong, and a Close as it was: then its sender has left, and what it still says is not heard.
pub fn who_left_is_silent()
    ensures { let pinged : List Seen = speaks 0 (frames.ping (codes "p")) ∷ three in
        let closed : List Seen = speaks 0 (frames.close None) ∷ pinged in
        let after : List Seen = speaks 0 (frames.text (codes "a")) ∷ closed in
        ((row_of 0 closed).waiting ≡ frames.pong (codes "p") ∷ frames.close None ∷ [])
        × (is_in (row_of 0 closed) ≡ false)
        × ((row_of 1 after).waiting ≡ []) }
{}

/// The last frame of a connection that closes after it is still said; then the member is out, and hears nothing.
pub fn the_last_frame_is_said()
    ensures { let last : List Seen = turn true 0 on.pull (on.frame (frames.text (codes "a"))) ∷ three in
        let after : List Seen = speaks 1 (frames.text (codes "b")) ∷ last in
        ((row_of 1 last).waiting ≡ frames.text (codes "a") ∷ [])
        × (is_in (row_of 0 last) ≡ false)
        × ((row_of 0 after).waiting ≡ []) }
{}

/// A list that has 1024 frames takes no more: a Close is added instead, once. A message of which a part alone would fit isn't
/// added at all.
pub fn a_full_list()
    ensures { let full : Member = record { room = Some (codes "/r"); has_left = false; parts = []; waiting = replicate 1023 (frames.text []) } in
        ((put (frames.text [] ∷ []) full).waiting ≡ replicate 1023 (frames.text []) ++ frames.text [] ∷ [])
        × ((put (frames.first_text [] ∷ frames.last [] ∷ []) full).waiting ≡ replicate 1023 (frames.text []) ++ policy_close ∷ [])
        × (is_in (put (frames.first_text [] ∷ frames.last [] ∷ []) full) ≡ false) }
{}

/// Of a message that isn't complete 1023 frames are kept, and no more.
pub fn a_message_that_is_too_long()
    ensures { kept (replicate 1024 (frames.continuation [])) ≡ leaves_with size_close }
{}
