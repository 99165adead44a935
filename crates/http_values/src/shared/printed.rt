//! What is printed is read as the value that printed it.
ghost use Rattle.std.specs.Prelude.{ℕ, ◌<◌, List, All};
ghost use Rattle.http_values.specs.declared.shared.extended.ExtendedValue.{ExtendedValue as Value};
ghost use Rattle.http_values.specs.declared.shared.mime.Mime.{Mime as MediaType};
ghost use Rattle.http_values.specs.ExtendedValue.{SaysExtended};
ghost use Rattle.http_values.specs.MimeValue.{mime_text, SaysMime};
ghost use Rattle.http_values.specs.Printed.{extended_text};

/// What a media type that was read prints is read as that media type.
pub fn printed_mime_is_read()
    ensures { (text : List ℕ) (m : MediaType) → SaysMime text m → SaysMime (mime_text m) m }
{}

/// What an extended value that was read prints is read as that value.
pub fn printed_extended_value_is_read()
    ensures { (text : List ℕ) (v : Value) → All (λ b. b < 256) v.value.items → SaysExtended text v → SaysExtended (extended_text v) v }
{}
