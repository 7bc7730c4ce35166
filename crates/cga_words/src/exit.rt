ghost use Rattle.std.specs.Prelude.{◌≡◌, ◌++◌};
ghost use Rattle.cga_words.specs.Exits.{line_in, line_of, name_of, number_of, options_of, unreadable_line};

use crate::program_name::ProgramName;
use crate::status::Status;

/// The exit status, and the line for standard error in three parts, which are empty where all is well.
#[derive(Clone, Copy)]
pub struct Exit {
    pub status: u8,
    pub before: &'static str,
    pub name: &'static str,
    pub behind: &'static str,
}

fn text_of(name: ProgramName) -> &'static str
    ensures { result.now ≡ name_of name }
{
    match name {
        ProgramName::City => "cga_city",
        ProgramName::Hulls => "cga_hulls",
        ProgramName::Live => "cga_live",
    }
}

// What stands behind the name where the words are wrong.
fn options(name: ProgramName) -> &'static str
    ensures { result.now ≡ options_of name }
{
    match name {
        ProgramName::City => " [--decimals N] [--town N]",
        ProgramName::Hulls => " [--decimals N]",
        ProgramName::Live => "",
    }
}

// The exit with a fault, which is told behind the name.
fn fault(name: ProgramName, status: u8, behind: &'static str) -> Exit
    ensures status { result.status ≡ status }
    ensures line { line_in result ≡ name_of name ++ behind.now }
{
    Exit {
        status,
        before: "",
        name: text_of(name),
        behind,
    }
}

fn usage(name: ProgramName) -> Exit
    ensures status { result.status ≡ 2 }
    ensures line { line_in result ≡ line_of name Status.Usage }
{
    Exit {
        status: 2,
        before: "usage: ",
        name: text_of(name),
        behind: options(name),
    }
}

/// The exit of a program at each end of a run.
pub fn exit_of(name: ProgramName, status: Status) -> Exit
    ensures status { result.status ≡ number_of status }
    ensures line { line_in result ≡ line_of name status }
{
    match status {
        Status::Done => Exit {
            status: 0,
            before: "",
            name: "",
            behind: "",
        },
        Status::Usage => usage(name),
        Status::ReadFault => fault(name, 3, ": cannot read"),
        Status::WriteFault => fault(name, 4, ": cannot write"),
        Status::TooLong => fault(name, 5, ": script too long"),
        Status::NoMemory => fault(name, 6, ": out of memory"),
    }
}

/// For words of the command line that aren't text.
pub(crate) fn unreadable(name: ProgramName) -> Exit
    ensures status { result.status ≡ 7 }
    ensures line { line_in result ≡ unreadable_line name }
{
    fault(name, 7, ": cannot read the command line")
}
