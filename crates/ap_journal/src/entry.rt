//! What a journal contains.

/// A type of journal entries. Only proofs have such values.
pub trait Entry {
    /// A placeholder, which a step names that adds no entry.
    ghost unwritten: { Self };
}

/// A run-time value that names an entry.
pub trait Describes<E> {
    /// The entry.
    ghost entry: { Self → E };
}

/// A run-time value that names a list of entries.
pub trait Lists<E> {
    ghost use Rattle.std.specs.Prelude.{List};

    /// The list.
    ghost entries: { Self → List E };
}
