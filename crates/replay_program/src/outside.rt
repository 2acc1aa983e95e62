//! What the program has from outside.

use replay_stream::Source;
use std::env;
use std::env::Env;
use std::fs::File;
use std::io::{self, Read};
use std::rt::Files;

/// What the program has from outside: its words, and the files of paths.
pub(crate) trait Outside {
    ghost use Rattle.std.specs.Prelude.{ℕ, List, Ok, Err, ⊤, IfOk, IfErr, map, string_bytes};
    ghost use Rattle.std.specs.IoError.{error_kind};
    ghost use Rattle.replay_program.specs.state.Answers.{Asking};
    ghost use Rattle.replay_program.specs.state.Files.{FileState, not_opened, was_opened, was_closed};

    type File: Read + Drop;

    // That these are the program's words, or that there are none for an error of this kind. Whoever calls any `Outside`
    // knows of it only by that call.
    ghost asked: { Self → Asking → Type 0 } = { λ _ _. ⊤ };

    // That the file of this path was seen so: not opened, opened or closed. It is known by those two calls alone.
    ghost seen: { Self → List ℕ → FileState → Type 0 } = { λ _ _ _. ⊤ };

    /// The program's words, the program's own name first.
    fn words(&self) -> io::Result<Vec<String>>
        ensures ok { IfOk result (λ words. asked self.now (Ok (map string_bytes words.items))) }
        ensures err { IfErr result (λ error. asked self.now (Err (error_kind error))) };

    /// Opens the file of a path.
    fn open(&self, path: &str) -> io::Result<Self::File>
        ensures ok { IfOk result (λ file. seen self.now path.now (was_opened (Self.File.remaining file))) }
        ensures err { IfErr result (λ error. seen self.now path.now (not_opened (error_kind error))) };

    /// Closes the file of a path, as its reader left it.
    fn close<R: Source + Drop>(&self, path: &str, reader: R)
        ensures { seen self.now path.now (was_closed (R.left reader) (R.failures reader)) };
}

impl<H: Files + Env + AllocGlobal> Outside for H {
    type File = H::File;

    fn words(&self) -> io::Result<Vec<String>> {
        let mut words = Vec::new(self.alloc());
        // No contract describes the arguments of a program: by this trait clauses can name them.
        // (docs/decisions/program.md)
        for word in env::args(self)? {
            words.push(word)?;
        }
        Ok(words)
    }

    fn open(&self, path: &str) -> io::Result<H::File> {
        File::open(self, path)
    }

    fn close<R: Source + Drop>(&self, _path: &str, reader: R) {
        drop(reader);
    }
}
