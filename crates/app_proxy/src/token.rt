//! The numbers by which the system tells which socket is ready.
ghost use Rattle.std.specs.Prelude.{◌≡◌, ◌<◌, ◌+◌, ◌*◌, ◌^◌, ℕ};

/// The standard input.
pub const INPUT: usize = 0;

/// What listens for clients.
pub const LISTENER: usize = 1;

/// Those of clients begin here: an even one for the client's socket, and the odd one after it for its server's.
const FIRST: usize = 2;

/// Whose socket is ready.
#[derive(Clone, Copy, PartialEq, Eq)]
pub enum Whose {
    Input,
    Listener,

    /// That of the client at this place.
    Client(usize),

    /// That to the server of the client at this place.
    Server(usize),
}

/// The token of the socket of the client at this place.
pub fn client_token(place: usize) -> usize
    ensures { place < 2 ^ 62 → result ≡ 2 + 2 * place }
{
    place.saturating_mul(2).saturating_add(FIRST)
}

/// The token of the socket to the server of the client at this place.
pub fn server_token(place: usize) -> usize
    ensures { place < 2 ^ 62 → result ≡ 3 + 2 * place }
{
    client_token(place).saturating_add(1)
}

/// Whose socket has this token.
pub fn owner_of(token: usize) -> Whose
    ensures input { token ≡ 0 → result ≡ Whose.Input }
    ensures listener { token ≡ 1 → result ≡ Whose.Listener }
    ensures client { (place : ℕ) → token ≡ 2 + 2 * place → result ≡ Whose.Client place }
    ensures server { (place : ℕ) → token ≡ 3 + 2 * place → result ≡ Whose.Server place }
{
    match token {
        INPUT => Whose::Input,
        LISTENER => Whose::Listener,
        _ => {
            let place = token / 2 - 1;
            if token % 2 == 0 {
                Whose::Client(place)
            } else {
                Whose::Server(place)
            }
        }
    }
}
