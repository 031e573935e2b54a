//! The lines of files, one after another.
ghost use Rattle.std.specs.Prelude.{◌≡◌, ℕ, List, Option, [], ◌∷◌, None, IfErr, IfOk, OnOk, map, codes};
ghost use Rattle.ether_make.specs.InputFiles.{HasMadeFiles, StopsAtFile, StopsFiles, StopsNamed, StopsRun, UnlessOutput, named_or_input};
ghost use Rattle.ether_make.specs.Lines.{beginning};
ghost use Rattle.ether_make.specs.Program.{Continues, IsWhole};
ghost use Rattle.ether_make.specs.Serial.{progress_view};

use crate::output::write_end;
use crate::program::{RunFault, make_lines};
use crate::progress::Progress;
use crate::settings::Settings;
use std::alloc::Global;
use std::io;
use std::io::{BufRead, Write};

/// The name of standard input among those of files.
const STANDARD_INPUT: &str = "-";

/// What opens files by their names.
pub trait Inputs {
    /// The bytes of a file.
    type Input: BufRead + Drop;

    // A file of this name has these bytes, where they are known.
    ghost has: { Self → (name : List ℕ) → Option (List ℕ) → Type 0 };

    /// Opens the file of a name, at its first byte.
    fn open_named(&self, alloc: Global, name: &str) -> io::Result<Self::Input>
        ensures { IfOk result (λ input. has self.now name.now (Self.Input.Read.remaining input)) };
}

/// Why a run over files did not make all frames.
#[derive(Drop)]
pub struct FileFault<'a> {
    /// The name of the file with the line, or [`None`] if standard input has it.
    pub file: Option<&'a str>,
    /// What is wrong.
    pub fault: RunFault,
}

/// Makes the frames of the lines of files, one file after another, and writes them as one output. The file `-` is
/// standard input, which is read if no file is named. The first fault ends the run; the output has the frames of all
/// lines before it.
pub fn run_files<'a, I: Inputs, R: BufRead, W: Write>(
    inputs: &I,
    alloc: Global,
    settings: &Settings,
    names: &'a [&'a str],
    reader: &mut R,
    writer: &mut W,
) -> Result<(), FileFault<'a>>
    ensures made { OnOk result (HasMadeFiles (I.has inputs.now) settings.now (IsWhole settings.now)
        (beginning settings.now.seed)
        (named_or_input (map (λ s. s.now) names.now)) (R.remaining reader.old) (R.remaining reader.new)
        (W.contents writer.old) (W.contents writer.new)) }
    ensures fault { IfErr result (λ f. UnlessOutput f.fault (StopsRun (I.has inputs.now) settings.now
        (named_or_input (map (λ s. s.now) names.now)) (R.remaining reader.old) (R.remaining reader.new)
        (W.contents writer.old) (W.contents writer.new) f)) }
{
    let mut progress = Progress::new(settings.seed);
    match make_files(
        inputs,
        alloc,
        settings,
        or_input(names),
        reader,
        writer,
        &mut progress,
    ) {
        Ok(()) => match write_end(settings, writer, progress.link) {
            Ok(()) => Ok(()),
            Err(error) => Err(output_fault(error)),
        },
        Err(fault) => match &fault.fault {
            RunFault::Output(_) => Err(fault),
            _ => match write_end(settings, writer, progress.link) {
                Ok(()) => Err(fault),
                Err(error) => Err(output_fault(error)),
            },
        },
    }
}

/// The names of files, or that of standard input if there are none.
fn or_input<'a>(names: &'a [&'a str]) -> &'a [&'a str]
    ensures { map (λ s. s.now) result.now ≡ named_or_input (map (λ s. s.now) names.now) }
{
    if names.is_empty() {
        return &[STANDARD_INPUT];
    }
    names
}

/// The writer failed at the end.
fn output_fault<'a>(error: io::Error) -> FileFault<'a>
    ensures { result ≡ record { file = None; fault = RunFault.Output error } }
{
    FileFault {
        file: None,
        fault: RunFault::Output(error),
    }
}

/// Makes the frames of the lines of files after those of other lines, if there are any.
fn make_files<'a, I: Inputs, R: BufRead, W: Write>(
    inputs: &I,
    alloc: Global,
    settings: &Settings,
    names: &'a [&'a str],
    reader: &mut R,
    writer: &mut W,
    progress: &mut Progress,
) -> Result<(), FileFault<'a>>
    ensures made { OnOk result (HasMadeFiles (I.has inputs.now) settings.now
        (Continues settings.now (progress_view progress.old) (progress_view progress.new)) (progress_view progress.old)
        (map (λ s. s.now) names.now) (R.remaining reader.old) (R.remaining reader.new)
        (W.contents writer.old) (W.contents writer.new)) }
    ensures fault { IfErr result (StopsFiles (I.has inputs.now) settings.now (progress_view progress.old)
        (progress_view progress.new)
        (map (λ s. s.now) names.now) (R.remaining reader.old) (R.remaining reader.new)
        (W.contents writer.old) (W.contents writer.new)) }
{
    for name in names {
        if let Err(fault) = make_file(inputs, alloc, settings, name, reader, writer, progress) {
            return Err(fault);
        }
    }
    Ok(())
}

/// Makes the frames of the lines of a file or of standard input.
fn make_file<'a, I: Inputs, R: BufRead, W: Write>(
    inputs: &I,
    alloc: Global,
    settings: &Settings,
    name: &'a str,
    reader: &mut R,
    writer: &mut W,
    progress: &mut Progress,
) -> Result<(), FileFault<'a>>
    ensures made { OnOk result (HasMadeFiles (I.has inputs.now) settings.now
        (Continues settings.now (progress_view progress.old) (progress_view progress.new)) (progress_view progress.old)
        (name.now ∷ []) (R.remaining reader.old) (R.remaining reader.new)
        (W.contents writer.old) (W.contents writer.new)) }
    ensures fault { IfErr result (StopsNamed (I.has inputs.now) settings.now
        (Continues settings.now (progress_view progress.old) (progress_view progress.new)) (progress_view progress.old)
        name.now (R.remaining reader.old) (R.remaining reader.new) (W.contents writer.old) (W.contents writer.new)) }
{
    if name == STANDARD_INPUT {
        return match make_lines(alloc, settings, reader, writer, progress) {
            Ok(()) => Ok(()),
            Err(fault) => Err(FileFault { file: None, fault }),
        };
    }
    let mut input = match inputs.open_named(alloc, name) {
        Ok(input) => input,
        Err(error) => {
            return Err(FileFault {
                file: Some(name),
                fault: RunFault::Input(error),
            });
        }
    };
    match make_lines(alloc, settings, &mut input, writer, progress) {
        Ok(()) => Ok(()),
        Err(fault) => Err(FileFault {
            file: Some(name),
            fault,
        }),
    }
}
