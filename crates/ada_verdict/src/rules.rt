//! The number and the name of each rule, as they are printed.

/// A byte that begins no token and stands in no comment (2.1).
pub const BYTE_NOT_ALLOWED: &str = "F01 byte-not-allowed";

/// A string literal that is not closed on its line (2.6).
pub const OPEN_STRING: &str = "F02 open-string";

/// A number above 2147483647 (3.5.4).
pub const NUMBER_RANGE: &str = "F03 number-range";

/// A source of more than 1048576 bytes.
pub const SOURCE_TOO_LONG: &str = "F04 source-too-long";

/// An identifier that is too long or has not the form of one (2.3).
pub const IDENTIFIER_FORM: &str = "F05 identifier-form";

/// A token with which no unit goes on.
pub const UNEXPECTED_TOKEN: &str = "F10 unexpected-token";

/// A token that opens more than 64 levels of nesting.
pub const TOO_DEEP: &str = "F11 too-deep";

/// The unit is not at its end where the source is.
pub const END_OF_SOURCE: &str = "F12 end-of-source";

/// A name of which nothing is visible (8.3).
pub const UNKNOWN_NAME: &str = "F20 unknown-name";

/// A name that is declared already, or is predefined (8.3).
pub const DECLARED_TWICE: &str = "F21 declared-twice";

/// A name or a value of another kind or type than is wanted (8.6).
pub const WRONG_TYPE: &str = "F22 wrong-type";

/// A construct that is not in the profile.
pub const NOT_IN_PROFILE: &str = "F23 not-in-profile";

/// A declaration where its kind may not stand.
pub const LAYOUT: &str = "F24 layout";

/// An object or a component without the initial value that it needs.
pub const NO_INITIAL_VALUE: &str = "F25 no-initial-value";

/// An incomplete type that is not completed (3.10.1).
pub const BODY_MISSING: &str = "F26 body-missing";

/// A limit of the profile is passed.
pub const LIMIT: &str = "F27 limit";

/// A value that may be gone is followed, moved or freed.
pub const LOST_VALUE: &str = "S1 lost-value";

/// A variable is moved or freed whose object another variable owns.
pub const ALIAS_MOVED: &str = "S2 alias-moved";

/// A value is moved out of a component that keeps it: neither the next statement nor the assignment itself overwrites it.
pub const TAKE_PAIR: &str = "S3 take-pair";

/// At the end of a loop's body, or at an exit, less is known of a variable than at the loop's start.
pub const LOOP_STATE: &str = "S5 loop-state";

/// A component is freed whose path follows a value of the component's own access type, a path waits for calls that may free
/// an object that it leads through, or a variable with which two actual parameters begin is given for a formal parameter of
/// mode `in out`.
pub const UNSAFE_PATH: &str = "S6 unsafe-path";

/// At a normal end of a body a formal parameter of mode `in out` may hold a value that it doesn't own.
pub const FORMAL_NOT_OWNED: &str = "S7 formal-not-owned";

/// Adjust or Finalize uses an access type whose collection may have ended.
pub const FINALIZE_ORDER: &str = "S8 finalize-order";

/// An exception may come out of Adjust or Finalize.
pub const MAY_PROPAGATE: &str = "S9 may-propagate";

/// Finalize creates an object.
pub const FINALIZE_ALLOCATES: &str = "S10 finalize-allocates";

/// A record is copied that has a component of an access type, or an aggregate with such a component stands outside an allocator.
pub const RECORD_COPIED: &str = "S11 record-copied";
