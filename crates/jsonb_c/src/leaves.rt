//! The leaves of a document as two columns: their key paths, and their documents.

ghost use Rattle.std.specs.Prelude.{◌≡◌, ◌++◌, ◌∷◌, [], IfErr, IfOk, List, MatchResult, ℕ, ◌≤◌, false, length, nat_le, nat_lt, ◌&&◌};
ghost use Rattle.std.specs.List.{concat, AllZip};
ghost use Rattle.jsonb_doc.specs.Answer.{IsDecodingError, IsOutOfMemory, ◌or◌};
ghost use Rattle.jsonb_doc.specs.declared.error.Error.TheVariants.{OutOfMemory, TooLarge};
ghost use Rattle.jsonb_doc.specs.Format.{Decodes};
ghost use Rattle.jsonb_doc.specs.Payload.{Form};
ghost use Rattle.jsonb_doc.specs.Tree.{Tree};
ghost use Rattle.jsonb_raw.specs.Leaves.{leaves};
ghost use Rattle.jsonb_c.specs.Answers.{IsWritten, OfDocument, WritesResult};
ghost use Rattle.jsonb_c.specs.Private.LeafColumns.{HasLeaves, HasRows, IsRowOfLeaf, LeafRow, leaf_row};
ghost use Rattle.jsonb_c.specs.Leaves.{AreLeavesOf, DeliversLeaves};

use crate::status::Status;
use jsonb::{Error, KeyPaths, OwnedJsonb, RawJsonb};
use std::alloc::Global;

/// The number of leaves, and the numbers of bytes of their key paths and their documents.
#[repr(C)]
#[derive(Clone, Copy)]
pub struct LeafSizes {
    pub rows: usize,
    pub path_bytes: usize,
    pub document_bytes: usize,
}

/// Returns the leaves of a document in stored order: a column of key paths as text, and a column of documents. Writes
/// nothing if one of the buffers is too small.
#[unsafe(no_mangle)]
pub extern "C" fn jdoc_leaves(
    alloc: Global,
    document: &[u8],
    paths: &mut [u8],
    path_positions: &mut [u64],
    documents: &mut [u8],
    positions: &mut [u64],
    sizes: &mut LeafSizes,
) -> u32
    ensures { WritesResult (OfDocument document.now (λ form t. AreLeavesOf form t))
        (IsDecodingError or OutOfMemory or TooLarge)
        (DeliversLeaves (paths.old ∷ path_positions.old ∷ documents.old ∷ positions.old ∷ [])
        (paths.new ∷ path_positions.new ∷ documents.new ∷ positions.new ∷ []) sizes.new result) }
{
    match leaf_columns(alloc, document) {
        Ok(columns) => {
            *sizes = columns.sizes();
            if !columns.paths.has_room(paths, path_positions)
                || !columns.documents.has_room(documents, positions)
            {
                return Status::BufferTooSmall.to_u32();
            }
            columns.paths.write(paths, path_positions);
            columns.documents.write(documents, positions);
            Status::Answered.to_u32()
        }
        Err(error) => {
            *sizes = LeafSizes {
                rows: 0,
                path_bytes: 0,
                document_bytes: 0,
            };
            Status::Refused(error).to_u32()
        }
    }
}

/// A column being built: rows one after the other, and the offsets between them.
#[derive(Drop)]
struct MadeColumn {
    bytes: Vec<u8>,
    positions: Vec<u64>,
}

impl MadeColumn {
    /// Creates a column without rows.
    fn new(alloc: Global) -> Result<MadeColumn, Error>
        ensures { MatchResult result (λ column. HasRows column []) IsOutOfMemory }
    {
        let mut positions = Vec::new(alloc);
        positions.push(0)?;
        Ok(MadeColumn {
            bytes: Vec::new(alloc),
            positions,
        })
    }

    /// Appends a row.
    fn push(&mut self, row: &[u8]) -> Result<(), Error>
        ensures rows { (rows : List (List ℕ)) → HasRows self.old rows
            → IfOk result (λ _. HasRows self.new (rows ++ row.now ∷ [])) }
        ensures errors { IfErr result IsOutOfMemory }
    {
        self.bytes.extend_from_slice(row)?;
        self.positions.push(self.bytes.len() as u64)?;
        Ok(())
    }

    /// Returns `true` if the column fits in the buffers.
    fn has_room(&self, bytes: &[u8], positions: &[u64]) -> bool
        ensures { result ≡ (nat_le (length self.now.bytes.items) (length bytes.now)
            && nat_le (length self.now.positions.items) (length positions.now)) }
    {
        self.bytes.len() <= bytes.len() && self.positions.len() <= positions.len()
    }

    /// Writes the column to buffers in which it fits.
    fn write(&self, bytes: &mut [u8], positions: &mut [u64])
        requires bytes { length self.now.bytes.items ≤ length bytes.old }
        requires positions { length self.now.positions.items ≤ length positions.old }
        ensures bytes { IsWritten self.now.bytes.items bytes.old bytes.new }
        ensures positions { IsWritten self.now.positions.items positions.old positions.new }
    {
        bytes[..self.bytes.len()].copy_from_slice(&self.bytes);
        positions[..self.positions.len()].copy_from_slice(&self.positions);
    }
}

/// The columns of key paths and of documents.
#[derive(Drop)]
struct LeafColumns {
    paths: MadeColumn,
    documents: MadeColumn,
}

impl LeafColumns {
    /// Returns the sizes of the columns.
    fn sizes(&self) -> LeafSizes
        ensures rows { (found : List LeafRow) → HasLeaves self.now found → result.rows ≡ length found }
        ensures path_bytes { result.path_bytes ≡ length self.now.paths.bytes.items }
        ensures document_bytes { result.document_bytes ≡ length self.now.documents.bytes.items }
    {
        LeafSizes {
            rows: self.documents.positions.len().saturating_sub(1),
            path_bytes: self.paths.bytes.len(),
            document_bytes: self.documents.bytes.len(),
        }
    }

    /// Appends a leaf.
    fn push(
        &mut self,
        alloc: Global,
        path: &KeyPaths<'_>,
        document: &OwnedJsonb,
    ) -> Result<(), Error>
        ensures row { (found : List LeafRow) → HasLeaves self.old found
            → IfOk result (λ _. HasLeaves self.new (found ++ leaf_row (path.now, document.now) ∷ [])) }
        ensures errors { IfErr result IsOutOfMemory }
    {
        let text = format!(in alloc; "{path}")?;
        self.paths.push(text.as_bytes())?;
        self.documents.push(document.as_raw().as_bytes())?;
        Ok(())
    }
}

/// Returns the leaves of a document as columns.
fn leaf_columns(alloc: Global, document: &[u8]) -> Result<LeafColumns, Error>
    ensures leaves { MatchResult result
        (λ columns. (found : List LeafRow) × HasLeaves columns found
        × ((form : Form) (t : Tree) → Decodes form document.now t
        → AllZip (IsRowOfLeaf form) (leaves false t) found))
        (λ e. (form : Form) (t : Tree) → Decodes form document.now t → IsOutOfMemory e) }
    ensures errors { IfErr result (IsDecodingError or OutOfMemory or TooLarge) }
{
    let leaves = RawJsonb::new(document).leaf_documents(alloc, false)?;
    let mut columns = LeafColumns {
        paths: MadeColumn::new(alloc)?,
        documents: MadeColumn::new(alloc)?,
    };
    for (path, leaf) in &leaves {
        columns.push(alloc, path, leaf)?;
    }
    Ok(columns)
}
