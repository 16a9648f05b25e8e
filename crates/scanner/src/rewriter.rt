ghost use Rattle.std.specs.Prelude.{◌≡◌, [], IfOk};
ghost use Rattle.scanner.specs.Laws.{RewritingLaws};
ghost use Rattle.scanner.specs.Rewriting.{Rewritten};

use buffer::{Buffer, TooLong};
use newlines::{regex_for_newlines, regex_for_no_newlines};
use std::alloc::{AllocError, Global};
use tokens::replace_posix_char_classes;

/// Rewrites the patterns of a grammar as a loader does.
#[derive(Drop)]
pub struct Rewriter {
    /// the text between the two steps
    replaced: Buffer<u8>,
}

impl Rewriter {
    pub fn new(heap: Global) -> Result<Self, AllocError>
        ensures { IfOk result (λ w. w.replaced.items ≡ []) }
    {
        let replaced = Buffer::new(heap)?;
        Ok(Rewriter { replaced })
    }

    /// Appends the pattern with properties in the place of POSIX brackets, for lines with or without a newline at their end.
    #[tactic(auto, using(crate::proofs::RewritingLaws::rewriting_laws))]
    pub fn rewrite(
        &mut self,
        regex: &[u8],
        lines_include_newline: bool,
        out: &mut Buffer<u8>,
    ) -> Result<(), TooLong>
        ensures text { Rewritten lines_include_newline regex.now out.old.items result out.new.items }
        ensures laws { RewritingLaws }
    {
        self.replaced.clear();
        replace_posix_char_classes(regex, &mut self.replaced)?;
        // A flag and no enum: callers pass the loader's setting as it is.
        if lines_include_newline {
            regex_for_newlines(self.replaced.as_slice(), out)
        } else {
            regex_for_no_newlines(self.replaced.as_slice(), out)
        }
    }
}
