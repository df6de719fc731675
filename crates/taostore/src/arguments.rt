//! The arguments of the process.
ghost use Rattle.std.specs.Prelude.{◌≡◌, ◌≢◌, drop, Err, IfOk, IfErr};
ghost use Rattle.std.specs.IoError.{error_kind};
ghost use Rattle.std.specs.Vec.Iter.{into_iter_items};
ghost use Rattle.taostore.specs.declared.output.End.TheVariants.{Refused, NoMemory};

use crate::output::End;
use std::alloc::Global;
use std::env::Args;
use std::io;
use std::io::ErrorKind;

/// The words after the program's name, which is the first of the arguments. Arguments that aren't text are refused words.
pub fn words(alloc: Global, arguments: io::Result<Args>) -> Result<Vec<String>, End>
    ensures words { IfOk arguments (λ all. IfOk result (λ words. words.items ≡ drop 1 (into_iter_items all))) }
    ensures memory { IfOk arguments (λ _. IfErr result (λ end. end ≡ NoMemory)) }
    ensures unread { IfErr arguments (λ error. error_kind error ≡ ErrorKind.OutOfMemory → result ≡ Err NoMemory) }
    ensures refused { IfErr arguments (λ error. error_kind error ≢ ErrorKind.OutOfMemory → result ≡ Err Refused) }
{
    match arguments {
        Ok(all) => after_first(alloc, all),
        Err(error) if error.kind() == ErrorKind::OutOfMemory => Err(End::NoMemory),
        Err(_) => Err(End::Refused),
    }
}

fn after_first(alloc: Global, all: Args) -> Result<Vec<String>, End>
    ensures ok { IfOk result (λ words. words.items ≡ drop 1 (into_iter_items all)) }
    ensures err { IfErr result (λ end. end ≡ NoMemory) }
{
    match all.skip(1).collect(alloc) {
        Ok(words) => Ok(words),
        Err(_) => Err(End::NoMemory),
    }
}
