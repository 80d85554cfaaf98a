//! Commands, read from the words of a command line.

ghost use Rattle.std.specs.Prelude.{◌≡◌, map, option_map, Ok, Err, IfOk, IfErr, MatchResult, string_bytes};
ghost use Rattle.hex.specs.Hex.{decode_of};
ghost use Rattle.jsonb.specs.Error.TheVariants.{OutOfMemory};
ghost use Rattle.jsonb_tool.specs.Requests.{bytes_of, request_of};
ghost use Rattle.jsonb_tool.specs.Private.Lines.{request};
ghost use Rattle.jsonb.specs.Answer.{IsOutOfMemory};

use hex::FromHexError;
use jsonb::Error;
use std::alloc::Global;

/// A command with its arguments.
#[derive(Drop)]
pub enum Command<'w> {
    /// The document at the place of a key path.
    Get { path: &'w str, document: Vec<u8> },
    /// The sortable key of the document.
    Key { document: Vec<u8> },
    /// The leaves of the document with their key paths.
    Leaves { document: Vec<u8> },
    /// What a JSON path selects of the document.
    Select { path: &'w str, document: Vec<u8> },
    /// What a JSON path says of the document as a predicate.
    Match { path: &'w str, document: Vec<u8> },
}

impl<'w> Command<'w> {
    /// Returns the command of the arguments, with its document decoded from hexadecimal. Returns `None` if they are
    /// another command, too few or too many, or if the document is not hexadecimal.
    ///
    /// # Errors
    ///
    /// `OutOfMemory` if an allocation fails.
    ///
    /// # Complexity
    ///
    /// Linear in the document's digits. Allocates its bytes.
    pub fn read(alloc: Global, words: &'w [String]) -> Result<Option<Command<'w>>, Error>
        ensures value { IfOk result (λ found. option_map request found ≡ request_of (map string_bytes words.now)) }
        ensures err { IfErr result IsOutOfMemory }
    {
        match words {
            [name, path, digits] if name.as_str() == "get" => {
                let path = path.as_str();
                let document = document_from(alloc, digits.as_str())?;
                Ok(document.map(|document| Command::Get { path, document }))
            }
            [name, path, digits] if name.as_str() == "select" => {
                let path = path.as_str();
                let document = document_from(alloc, digits.as_str())?;
                Ok(document.map(|document| Command::Select { path, document }))
            }
            [name, path, digits] if name.as_str() == "match" => {
                let path = path.as_str();
                let document = document_from(alloc, digits.as_str())?;
                Ok(document.map(|document| Command::Match { path, document }))
            }
            [name, digits] if name.as_str() == "key" => {
                let document = document_from(alloc, digits.as_str())?;
                Ok(document.map(|document| Command::Key { document }))
            }
            [name, digits] if name.as_str() == "leaves" => {
                let document = document_from(alloc, digits.as_str())?;
                Ok(document.map(|document| Command::Leaves { document }))
            }
            _ => Ok(None),
        }
    }
}

/// Returns the bytes of hexadecimal digits of either case, or `None` for other text.
fn document_from(alloc: Global, digits: &str) -> Result<Option<Vec<u8>>, Error>
    ensures value { IfOk result (λ found. option_map (λ bytes. bytes.items) found ≡ bytes_of digits.now) }
    ensures err { IfErr result IsOutOfMemory }
{
    Ok(decode(alloc, digits)?.ok())
}

/// Returns the bytes of hexadecimal digits of either case, or why text is not that. Fails only if an allocation fails.
pub(crate) fn decode(alloc: Global, digits: &str) -> Result<Result<Vec<u8>, FromHexError>, Error>
    ensures value { IfOk result (λ found. MatchResult found
        (λ bytes. decode_of digits.now ≡ Ok bytes.items) (λ e. decode_of digits.now ≡ Err e)) }
    ensures err { IfErr result IsOutOfMemory }
{
    let mut bytes = vec![in alloc; 0u8; digits.len() / 2]?;
    match hex::decode_to_slice(digits, bytes.as_mut_slice()) {
        Ok(()) => Ok(Ok(bytes)),
        Err(error) => Ok(Err(error)),
    }
}
