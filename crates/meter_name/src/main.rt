//! The program `meter_name`: the address of what stands on a meter's label, and the label of an address.
#![tactic(auto)]

ghost use Rattle.std.specs.Prelude.{◌≡◌, ◌⊎◌, true, false, map, IfOk, IfErr};
ghost use Rattle.std.specs.String.{string_bytes};
ghost use Rattle.std.specs.Process.{exit_status};
ghost use Rattle.program_words.specs.OwnTexts.{asks_for_text, IsTold};
ghost use Rattle.meter_name.specs.Naming.{named_by};
ghost use Rattle.meter_name.specs.Statuses.{code_of};

mod naming;
mod status;

use naming::{NameFault, name_run};
use outer_io::StdSink;
use program_words::{NoWords, command_words, own_text, tell};
use status::NameStatus;
use std::process::ExitCode;

const HELP: &str =
    "meter_name: the address of what stands on a meter's label, and the label of an address

usage: meter_name MAKER IDENTIFICATION VERSION TYPE
       meter_name ADDRESS
       meter_name --help
       meter_name --version

MAKER is three capital letters, IDENTIFICATION the eight digits on the label,
VERSION and TYPE two hexadecimal digits each; the address is printed for them,
as rosters and reports have it. For an ADDRESS, sixteen hexadecimal digits,
these four words are printed, and the device type in words.

exit status: 0 done, 2 faulty words, 7 output not written, 10 no memory

docs/FORMATS.md says what each fault, refusal and message means and what to do about
it; docs/meter_name.1 is the man page.
";

const VERSION: &str = "meter_name 0.9.0\n";

// Says what a status means, unless all is done, and ends with it.
fn end(rt: &impl Eprint, status: NameStatus) -> ExitCode
    ensures { exit_status result ≡ code_of status }
{
    program_words::end(rt, status.code(), status)
}

// Does what the words behind the program's name ask for.
fn perform<R: Print + Eprint>(rt: &R, command: &[String], mut out: StdSink) -> ExitCode
    ensures text { asks_for_text (map string_bytes command.now) ≡ true → IsTold 7 (exit_status result) }
    ensures faulty { asks_for_text (map string_bytes command.now) ≡ false →
        IfErr (named_by (map string_bytes command.now)) (λ _. exit_status result ≡ 2) }
    ensures named { asks_for_text (map string_bytes command.now) ≡ false →
        IfOk (named_by (map string_bytes command.now)) (λ _. (exit_status result ≡ 0) ⊎ (exit_status result ≡ 7)) }
{
    if let Some(own) = own_text(command) {
        let unwritten = NameStatus::Write;
        return tell(rt, own.text(HELP, VERSION), unwritten.code(), unwritten);
    }
    let status = name_run(command, &mut out);
    end(rt, status)
}

// What it means that the words can't be had.
fn status_without_words(reason: NoWords) -> NameStatus
    ensures memory { reason ≡ NoWords.Memory → result ≡ NameStatus.Memory }
    ensures not_text { reason ≡ NoWords.NotText → result ≡ NameStatus.Words NameFault.NotText }
{
    match reason {
        NoWords::Memory => NameStatus::Memory,
        NoWords::NotText => NameStatus::Words(NameFault::NotText),
    }
}

fn main(rt: HostRuntime) -> ExitCode {
    match command_words(&rt) {
        Ok(command) => perform(&rt, &command, StdSink::standard(rt.stdout())),
        Err(reason) => end(&rt, status_without_words(reason)),
    }
}
