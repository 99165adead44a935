//! What is drawn: which exchange comes next, and how many bytes its bodies have.
ghost use Rattle.std.specs.Prelude.{◌≡◌, ◌≤◌};
ghost use Rattle.h1_generated.specs.Generated.{next_state, drawn, kind_of, len_of};
ghost use Rattle.h1_generated.specs.GeneratedMeaning.{model_kind};

const MULTIPLIER: u64 = 6_364_136_223_846_793_005;

const INCREMENT: u64 = 1_442_695_040_888_963_407;

/// A request without a body, of GET or of HEAD, or a POST with a body of a stated length or in chunks.
#[derive(Clone, Copy, Debug, PartialEq, Eq)]
pub(crate) enum Kind {
    Get,
    Head,
    Sized,
    Chunked,
}

/// The state that follows this one.
pub(crate) fn next_state(state: u64) -> u64
    ensures { result ≡ next_state state }
{
    state.wrapping_mul(MULTIPLIER).wrapping_add(INCREMENT)
}

/// What is drawn at a state: its upper bits, the better ones of such a generator.
pub(crate) fn drawn(state: u64) -> u64
    ensures { result ≡ drawn state }
{
    state >> 33
}

/// The exchange that a draw names.
pub(crate) fn kind_of(draw: u64) -> Kind
    ensures { model_kind result ≡ kind_of draw }
{
    match draw % 4 {
        0 => Kind::Get,
        1 => Kind::Sized,
        2 => Kind::Chunked,
        _ => Kind::Head,
    }
}

/// How many bytes its bodies have: from 1 to 1000.
pub(crate) fn len_of(draw: u64) -> usize
    ensures value { result ≡ len_of draw }
    ensures most { result ≤ 1000 }
{
    (draw / 4 % 1000) as usize + 1
}
