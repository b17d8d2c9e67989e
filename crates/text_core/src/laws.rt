// What the definitions of bytes say of each other.
ghost use Rattle.std.specs.Prelude.{◌≡◌, ℕ, ◌<◌, ◌^◌, List, ◌++◌, length, drop, slice_index, Some, Ok, IsTrue, encode_utf8_all};
ghost use Rattle.std.specs.Str.{all_scalars};
ghost use Rattle.text_core.specs.Words.{u32_bytes, u64_bytes, u32_at, u64_at};
ghost use Rattle.text_core.specs.TextBytes.{text_bytes, text_at};
ghost use Rattle.text_core.specs.Standing.{U32Begins, U64Begins, TextBegins};

/// Does nothing. A number is read exactly where its bytes stand.
pub fn numbers_are_read_where_they_stand()
    ensures u32_read { (value : ℕ) (rest : List ℕ) → value < 2 ^ 32 → u32_at (u32_bytes value ++ rest) ≡ Some value }
    ensures u32_stands { (bytes : List ℕ) (value : ℕ)
        → ((i : ℕ) → slice_index bytes i < 256) → u32_at bytes ≡ Some value → U32Begins bytes value }
    ensures u64_read { (value : ℕ) (rest : List ℕ) → value < 2 ^ 64 → u64_at (u64_bytes value ++ rest) ≡ Some value }
    ensures u64_stands { (bytes : List ℕ) (value : ℕ)
        → ((i : ℕ) → slice_index bytes i < 256) → u64_at bytes ≡ Some value → U64Begins bytes value }
{}

/// Does nothing. A text is read exactly where its bytes stand.
pub fn texts_are_read_where_they_stand()
    ensures read { (text rest : List ℕ) → IsTrue (all_scalars text) → length (encode_utf8_all text) < 2 ^ 28
        → text_at (text_bytes text ++ rest) ≡ Ok (text, rest) }
    ensures stands { (bytes text rest : List ℕ)
        → ((i : ℕ) → slice_index bytes i < 256) → text_at bytes ≡ Ok (text, rest) → TextBegins bytes text rest }
{}
