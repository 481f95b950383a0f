//! The limits of document 01 as the code has them, each once; `meaning/specs/Limits.antt` has them as definitions, under the same names.
#![tactic(auto)]

ghost use Rattle.std.specs.Prelude.{◌≡◌};
ghost use Rattle.meaning.specs.Limits.{spec_bytes, name_bytes, mapped_bytes, spec_list_bytes, item_list_bytes, row_list_bytes, spec_count, item_count, number_groups, largest_number, id_digits, hash_digits, program_bytes, decimal_digits};

// Bytes of one spec, question 1.
pub const SPEC_BYTES: usize = 4096;

// Bytes of one item name, question 15.
pub const NAME_BYTES: usize = 4096;

// The most bytes of a text that a spec makes of a name.
pub const MAPPED_BYTES: usize = SPEC_BYTES + NAME_BYTES;

// Bytes of a spec list, question 12.
pub const SPEC_LIST_BYTES: usize = 65535;

// Bytes of an item list, question 12.
pub const ITEM_LIST_BYTES: usize = 65535;

// Bytes of a row list, question 12.
pub const ROW_LIST_BYTES: usize = 1048576;

// Specs of a list, question 14.
pub const SPEC_COUNT: usize = 256;

// Items of a list, question 14.
pub const ITEM_COUNT: usize = 1024;

// Groups of a number.
pub const NUMBER_GROUPS: usize = 3;

// The largest number of so many groups.
pub const LARGEST_NUMBER: usize = 2097151;

// Digits of an object id.
pub const ID_DIGITS: usize = 40;

// From so many hexadecimal digits on a negative source looks like an object id, question 11.
pub const HASH_DIGITS: usize = 40;

// Bytes of the program's input and of its printed text.
pub const PROGRAM_BYTES: usize = 65536;

// Digits of a printed number: a spec, an item or a refusal has at most so many.
pub const DECIMAL_DIGITS: usize = 4;

// All of them.
#[derive(Clone, Copy)]
pub struct Limits {
    pub spec_bytes: usize,
    pub name_bytes: usize,
    pub mapped_bytes: usize,
    pub spec_list_bytes: usize,
    pub item_list_bytes: usize,
    pub row_list_bytes: usize,
    pub spec_count: usize,
    pub item_count: usize,
    pub number_groups: usize,
    pub largest_number: usize,
    pub id_digits: usize,
    pub hash_digits: usize,
    pub program_bytes: usize,
    pub decimal_digits: usize,
}

// The limits, as the definitions have them.
pub fn as_defined() -> Limits
    ensures { result ≡ record { spec_bytes = spec_bytes; name_bytes = name_bytes; mapped_bytes = mapped_bytes; spec_list_bytes = spec_list_bytes; item_list_bytes = item_list_bytes; row_list_bytes = row_list_bytes; spec_count = spec_count; item_count = item_count; number_groups = number_groups; largest_number = largest_number; id_digits = id_digits; hash_digits = hash_digits; program_bytes = program_bytes; decimal_digits = decimal_digits } }
{
    Limits {
        spec_bytes: SPEC_BYTES,
        name_bytes: NAME_BYTES,
        mapped_bytes: MAPPED_BYTES,
        spec_list_bytes: SPEC_LIST_BYTES,
        item_list_bytes: ITEM_LIST_BYTES,
        row_list_bytes: ROW_LIST_BYTES,
        spec_count: SPEC_COUNT,
        item_count: ITEM_COUNT,
        number_groups: NUMBER_GROUPS,
        largest_number: LARGEST_NUMBER,
        id_digits: ID_DIGITS,
        hash_digits: HASH_DIGITS,
        program_bytes: PROGRAM_BYTES,
        decimal_digits: DECIMAL_DIGITS,
    }
}
