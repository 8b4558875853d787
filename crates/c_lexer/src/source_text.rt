//! The text of a source file, which is within the limit.

ghost use Rattle.std.specs.Prelude.{◌≤◌, length};
ghost use Rattle.c_lexer.specs.declared.source_text.TheConstants.{MAX_FILE_BYTES};

/// The size of the largest file that is read: 16 MiB.
pub const MAX_FILE_BYTES: usize = 16_777_216;

/// The bytes of a source file, of at most `MAX_FILE_BYTES`.
#[derive(Clone, Copy, Debug)]
pub struct SourceText<'a> {
    pub bytes: &'a [u8],
    pub ghost within: { length bytes.now ≤ MAX_FILE_BYTES },
}

impl<'a> SourceText<'a> {
    ghost use Rattle.std.specs.Prelude.{◌≡◌, ◌<◌, ◌↔◌, length, IfSome, IsNone};

    /// The text, if the bytes are within the limit.
    pub fn new(bytes: &'a [u8]) -> Option<SourceText<'a>>
        ensures text { IfSome result (λ text. text.bytes ≡ bytes.entry) }
        ensures too_large { IsNone result ↔ (MAX_FILE_BYTES < length bytes.entry.now) }
    {
        if bytes.len() > MAX_FILE_BYTES {
            return None;
        }
        Some(SourceText { bytes })
    }
}
