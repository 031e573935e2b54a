//! Streams that keep the error of a call that failed.
ghost use Rattle.std.specs.Prelude.{◌≡◌, ◌≢◌, None, Some, IfErr, IfSome, OnOk};
ghost use Rattle.std.specs.IoError.{error_kind};
ghost use Rattle.std.specs.declared.io.ErrorKind.TheVariants.{BrokenPipe, Interrupted};

use std::io;
use std::io::{ErrorKind, Read, Write};

/// A reader or writer, and the error of the last call on it that failed, but for calls that a signal interrupted.
///
/// A run returns only that a stream has failed. This keeps the reason.
///
/// ```
/// let noted = Noted::new(SliceSource::new(&[1, 2, 3]));
/// assert!(rt; noted.error().is_none());
/// ```
#[derive(Drop)]
pub struct Noted<T> {
    stream: T,
    error: Option<io::Error>,
}

impl<T> Noted<T> {
    /// Wraps a stream. No error is kept yet.
    pub fn new(stream: T) -> Self
        ensures stream { result.stream ≡ stream }
        ensures error { result.error ≡ None }
    {
        Noted {
            stream,
            error: None,
        }
    }

    /// The error of the last call that failed, or `None` if no call has failed.
    pub fn error(&self) -> Option<io::Error>
        ensures { result ≡ self.now.error }
    {
        self.error
    }
}

/// Keeps the error of a call that failed, unless a signal interrupted the call, which is then tried again. Returns what
/// the call returned.
fn note<V>(answer: io::Result<V>, error: &mut Option<io::Error>) -> io::Result<V>
    ensures same { result ≡ answer }
    ensures noted { IfErr result (λ e. error_kind e ≢ Interrupted → error.new ≡ Some e) }
    ensures interrupted { IfErr result (λ e. error_kind e ≡ Interrupted → error.new ≡ error.old) }
    ensures kept { OnOk result (error.new ≡ error.old) }
{
    match answer {
        Ok(value) => Ok(value),
        Err(e) if e.kind() == ErrorKind::Interrupted => Err(e),
        Err(e) => {
            *error = Some(e);
            Err(e)
        }
    }
}

impl<R: Read> Read for Noted<R> {
    ghost remaining = { λ noted. R.Read.remaining noted.stream };

    fn read(&mut self, buf: &mut [u8]) -> io::Result<usize> {
        note(self.stream.read(buf), &mut self.error)
    }
}

impl<W: Write> Write for Noted<W> {
    ghost contents = { λ noted. W.Write.contents noted.stream };

    fn write(&mut self, buf: &[u8]) -> io::Result<usize> {
        note(self.stream.write(buf), &mut self.error)
    }

    fn flush(&mut self) -> io::Result<()> {
        note(self.stream.flush(), &mut self.error)
    }

    fn write_all(&mut self, buf: &[u8]) -> io::Result<()> {
        note(self.stream.write_all(buf), &mut self.error)
    }
}

/// Writes one line to `messages`, which says what failed in `program` and why: standard output, else the arguments,
/// else standard input. If none of these failed, the line says that a file can't be read.
///
/// Nothing is written if output failed because nobody reads it any more: whoever closed it knows.
pub fn tell_failure<M: Write>(
    program: &str,
    args: Option<io::Error>,
    input: Option<io::Error>,
    output: Option<io::Error>,
    messages: &mut M,
)
    ensures { IfSome output (λ error. error_kind error ≡ BrokenPipe
        → M.contents messages.new ≡ M.contents messages.old) }
{
    let told = match (args, input, output) {
        (_, _, Some(error)) if error.kind() == ErrorKind::BrokenPipe => Ok(()),
        (_, _, Some(error)) => writeln!(messages, "{program}: standard output: {error}"),
        (Some(error), _, _) if error.kind() == ErrorKind::InvalidData => {
            writeln!(messages, "{program}: an argument is not UTF-8")
        }
        (Some(error), _, _) => writeln!(messages, "{program}: the arguments: {error}"),
        (_, Some(error), _) => writeln!(messages, "{program}: standard input: {error}"),
        _ => writeln!(messages, "{program}: a file can't be read"),
    };
    let _ = told;
}
