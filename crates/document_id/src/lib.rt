// The id of a document (R7.1). Printing and finishing both compute it.
#![tactic(auto)]

ghost use Rattle.std.specs.Prelude.{◌≡◌};
ghost use Rattle.document_id.specs.Id.{id_from, document_id_of};

// The id of the document whose ciphertext has this BLAKE2b: its first 8 bytes.
//
// For a ciphertext that is hashed piece by piece.
pub fn of_digest(d: [u8; 32]) -> [u8; wire::ID_SIZE]
    ensures { result ≡ id_from d }
{
    let mut id = [0; wire::ID_SIZE];
    id.copy_from_slice(&d[..wire::ID_SIZE]);
    id
}

// The id of the document: the first 8 bytes of the BLAKE2b of the whole ciphertext.
pub fn of(ciphertext: &[u8]) -> [u8; wire::ID_SIZE]
    ensures { result ≡ document_id_of ciphertext.now }
{
    of_digest(blake2b::blake2b(ciphertext))
}
