//! The laws of what a forwarded head says of the forwarder and of its client.

ghost use Rattle.std.specs.Prelude.{◌≡◌, false, List, [], ◌∷◌, ◌++◌, codes, unwrap_or};
ghost use Rattle.model_h1.specs.LengthTable.{values_of};
ghost use Rattle.model_client.specs.RequestText.{given_request_lines};
ghost use Rattle.model_proxy.specs.Edge.{via};
ghost use Rattle.model_proxy.specs.Forward.{passed_lines, named_host, Sent, forwarded};
ghost use Rattle.model_proxy.specs.Laws.{listed};

/// One host is named: that of the client, whatever its Connection lines say; else the server's own.
pub fn one_host_is_named()
    ensures { (s : Sent) → values_of (codes "host") (given_request_lines (forwarded s)) ≡ unwrap_or (named_host s.head) s.edge.host ∷ [] }
{}

/// The forwarder is named behind those that passed the request on before it.
pub fn via_is_added()
    ensures { (s : Sent) → values_of (codes "via") (given_request_lines (forwarded s))
        ≡ values_of (codes "via") (passed_lines s.edge s.head.headers) ++ via s.head.minor ∷ [] }
{}

/// A client that isn't trusted can't say whom its request comes from, nor how it came: those lines say what the forwarder saw.
pub fn a_clients_own_words_are_replaced()
    ensures address { (s : Sent) → s.edge.trusts ≡ false
        → values_of (codes "x-forwarded-for") (given_request_lines (forwarded s)) ≡ s.edge.address ∷ [] }
    ensures element { (s : Sent) → s.edge.trusts ≡ false
        → values_of (codes "forwarded") (given_request_lines (forwarded s)) ≡ s.edge.element ∷ [] }
    ensures protocol { (s : Sent) → s.edge.trusts ≡ false
        → values_of (codes "x-forwarded-proto") (given_request_lines (forwarded s)) ≡ codes "http" ∷ [] }
    ensures host { (s : Sent) → s.edge.trusts ≡ false
        → values_of (codes "x-forwarded-host") (given_request_lines (forwarded s)) ≡ listed (named_host s.head) }
{}

/// The lists of a client that is trusted grow by what the forwarder saw.
pub fn the_lists_of_earlier_clients_grow()
    ensures address { (s : Sent) → values_of (codes "x-forwarded-for") (given_request_lines (forwarded s))
        ≡ values_of (codes "x-forwarded-for") (passed_lines s.edge s.head.headers) ++ s.edge.address ∷ [] }
    ensures element { (s : Sent) → values_of (codes "forwarded") (given_request_lines (forwarded s))
        ≡ values_of (codes "forwarded") (passed_lines s.edge s.head.headers) ++ s.edge.element ∷ [] }
{}
