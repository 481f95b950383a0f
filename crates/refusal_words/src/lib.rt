// Why a line of text is refused, in words.
#![tactic(auto)]

ghost use Rattle.std.specs.Prelude.{◌≡◌};
ghost use Rattle.refusal_words.specs.Words.{reason_words};

// The words for a reason: document 01's number for a spec or for a list, or one of `text_lists`.
// As it is: (d) a table from numbers to words, with words for any number, so no Display of a type that has fewer.
#[tactic(auto, unfolding(crate::specs::Words::reason_words, crate::specs::Words::place_of))]
pub fn reason(n: u64) -> &'static [u8]
    ensures { result.now ≡ reason_words n }
{
    match n {
        1 => b"the spec is above 4,096 bytes",
        2 => b"a push spec is empty",
        3 => b"a spec with `^` has a colon",
        4 => b"a push has a colon and a source, and no destination",
        5 => b"the source has more than one star",
        6 => b"the source does not pass the name rules",
        7 => b"the destination has more than one star",
        8 => b"the destination does not pass the name rules",
        9 => b"one side has a star and the other has none",
        10 => b"no source follows `^`",
        11 => b"the source after `^` is forty or more hexadecimal digits",
        12 => b"with it the specs, or the names, take more than 65,535 bytes",
        14 => b"it is one more than 256 specs, or than 1,024 names",
        15 => b"the name is above 4,096 bytes",
        101 => b"a push is not listed, only a fetch is",
        102 => b"no `fetch SPEC`, `push SPEC`, `name NAME` or `shown =NAME`",
        103 => b"it begins with a byte order mark, the bytes EF BB BF",
        104 => b"what is shown does not begin with `=`",
        105 => b"two capital hexadecimal digits do not follow a `%`",
        106 => b"a listing shows such a byte as `%` and two digits",
        _ => b"it is refused",
    }
}
