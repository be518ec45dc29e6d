//! Laws of what errors are written as and read as. A function here does nothing: its contract is the law.
ghost use Rattle.std.specs.Prelude.{◌≡◌, Some};
ghost use Rattle.amqp_session_types.specs.Error.{error_item, error_taken};
ghost use Rattle.amqp_session_types.specs.declared.error.Error.{Error};

/// What an error is written as is read as this error, and two errors are written as two items.
pub fn error_is_its_item()
    ensures read_back { (e : Error) → error_taken (error_item e) ≡ Some (error_item e) }
    ensures told_apart { (d e : Error) → error_item d ≡ error_item e → d ≡ e }
{}
