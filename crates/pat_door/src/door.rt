//! Where connections come from, by three meanings: two counts of faults that never fall and, where they are told, the
//! connections to come and what was answered.
ghost use Rattle.std.specs.Prelude.{ℕ, ◌≡◌, ◌<◌, ◌≤◌, ◌-◌, ◌++◌, ◌∷◌, [], List, length, take, Option, Some, IfOk, IsOk, IsSome, IsOkAnd, OnOk, OnErr, MatchResult};
ghost use Rattle.pat_outside.specs.Outside.{Known, Rose};
ghost use Rattle.pat_door.specs.Doors.{Accepted, DoorCall, DoorFacts, Failed as LineFailed, Opened, ReadCounts, Tells, bytes_here, none_read, read_more, after_accept, after_read, after_write, after_hang_up};

use pat_outside::Failed;

/// Where connections come from, one after another: the present one, which was accepted last, is read and answered until it
/// is hung up, or until the next one is accepted. `open` and `accept` count their faults, and `read` and `write` theirs.
pub trait Door {
    // The connections still to come, the present one and the answers, where they are told.
    ghost told: { Self → Option DoorFacts };

    // How many calls of `open` and `accept` failed.
    ghost door_faults: { Self → ℕ };

    // How many calls of `read` and `write` failed.
    ghost connection_faults: { Self → ℕ };

    // No call of `open` fails, nor one of the next so many of `accept`.
    ghost serves: { Self → ℕ → Type 0 };

    // There is a present connection: the next so many bytes written on it are taken without a fault, and no read of it fails.
    ghost takes: { Self → ℕ → Type 0 };

    // Whatever connections are accepted, the next so many bytes written on them are taken without a fault, and no read of them fails.
    ghost has_room: { Self → ℕ → Type 0 };

    // Of the calls so far these are all of `open` and `accept` that didn't fail, and all of `read` and `write` that did, in this order.
    ghost heard: { Self → List DoorCall → Type 0 };

    // So much was read of the present connection, or of the one that ended last.
    ghost has_read: { Self → ReadCounts → Type 0 };

    /// Begins to listen at an address, as `127.0.0.1:8008`. It fails where that can't be had.
    fn open(&mut self, address: &[u8]) -> Result<(), Failed>
        ensures same { told self.new ≡ told self.old }
        ensures failed { OnErr result (Rose (door_faults self.old) (door_faults self.new)) }
        ensures grows { door_faults self.old ≤ door_faults self.new }
        ensures line { connection_faults self.new ≡ connection_faults self.old }
        ensures served { (n : ℕ) → serves self.old n → IsOk result × serves self.new n }
        ensures heard { (calls : List DoorCall) → heard self.old calls → MatchResult result (λ _. heard self.new (calls ++ Opened address.now ∷ [])) (λ _. heard self.new calls) }
        ensures spare { (n : ℕ) → has_room self.old n → has_room self.new n }
        ensures counts { (counts : ReadCounts) → has_read self.old counts → has_read self.new counts };

    /// Waits for the next connection, and makes it the present one, with an empty answer. Where one is accepted already, that
    /// one ends: what it still had to bring is lost, and what was answered on it stays. It fails where none can be had, and
    /// then the present one stays.
    fn accept(&mut self) -> Result<(), Failed>
        ensures some { OnOk result (Tells (told self.old) (λ facts. 0 < length facts.coming)) }
        ensures after { OnOk result (Tells (told self.old) (λ facts. told self.new ≡ Some (after_accept facts))) }
        ensures same { OnErr result (told self.new ≡ told self.old) }
        ensures failed { OnErr result (Rose (door_faults self.old) (door_faults self.new)) }
        ensures grows { door_faults self.old ≤ door_faults self.new }
        ensures line { connection_faults self.new ≡ connection_faults self.old }
        ensures served { (n : ℕ) → serves self.old n → 0 < n → IsOk result × serves self.new (n - 1) }
        ensures heard { (calls : List DoorCall) → heard self.old calls → MatchResult result (λ _. heard self.new (calls ++ Accepted ∷ [])) (λ _. heard self.new calls) }
        ensures spare { (n : ℕ) → has_room self.old n → has_room self.new n × OnOk result (takes self.new n) }
        ensures begun { OnOk result (has_read self.new none_read) }
        ensures counts { OnErr result ((counts : ReadCounts) → has_read self.old counts → has_read self.new counts) };

    /// Reads some of the next bytes of the present connection into the front of the buffer, and answers how many. A call with
    /// a buffer that isn't empty answers 0 exactly at the end of what the connection brings, where that is told. It fails
    /// where no connection is accepted.
    fn read(&mut self, buf: &mut [u8]) -> Result<usize, Failed>
        ensures within { IfOk result (λ count. count ≤ length buf.old) }
        ensures present { OnOk result (Tells (told self.old) (λ facts. IsSome facts.here)) }
        ensures bytes { IfOk result (λ count. Known (bytes_here (told self.old)) (λ all. (count ≤ length all) × (take count buf.new ≡ take count all))) }
        ensures after { IfOk result (λ count. Tells (told self.old) (λ facts. told self.new ≡ Some (after_read count facts))) }
        ensures end { IfOk result (λ count. Known (bytes_here (told self.old)) (λ all. count ≡ 0 → 0 < length buf.old → length all ≡ 0)) }
        ensures same { OnErr result (told self.new ≡ told self.old) }
        ensures failed { OnErr result (Rose (connection_faults self.old) (connection_faults self.new)) }
        ensures grows { connection_faults self.old ≤ connection_faults self.new }
        ensures door { door_faults self.new ≡ door_faults self.old }
        ensures served { (n : ℕ) → serves self.old n → serves self.new n }
        ensures reliable { (n : ℕ) → takes self.old n → IsOk result × takes self.new n }
        ensures spare { (n : ℕ) → has_room self.old n → has_room self.new n }
        ensures heard { (calls : List DoorCall) → heard self.old calls → MatchResult result (λ _. heard self.new calls) (λ _. heard self.new (calls ++ LineFailed ∷ [])) }
        ensures counts { (counts : ReadCounts) → has_read self.old counts → MatchResult result (λ count. has_read self.new (read_more count counts)) (λ _. has_read self.new counts) };

    /// Writes some of the piece from its front on the present connection, and answers how many bytes: at least one of a piece
    /// that isn't empty. It fails where no connection is accepted.
    fn write(&mut self, piece: &[u8]) -> Result<usize, Failed>
        ensures within { IfOk result (λ count. count ≤ length piece.now) }
        ensures some { IfOk result (λ count. 0 < length piece.now → 0 < count) }
        ensures present { OnOk result (Tells (told self.old) (λ facts. IsSome facts.here)) }
        ensures grown { IfOk result (λ count. Tells (told self.old) (λ facts. told self.new ≡ Some (after_write (take count piece.now) facts))) }
        ensures same { OnErr result (told self.new ≡ told self.old) }
        ensures failed { OnErr result (Rose (connection_faults self.old) (connection_faults self.new)) }
        ensures grows { connection_faults self.old ≤ connection_faults self.new }
        ensures door { door_faults self.new ≡ door_faults self.old }
        ensures served { (n : ℕ) → serves self.old n → serves self.new n }
        ensures room { (n : ℕ) → takes self.old n → length piece.now ≤ n → IsOkAnd result (λ count. takes self.new (n - count)) }
        ensures spare { (n : ℕ) → has_room self.old n → MatchResult result (λ count. has_room self.new (n - count)) (λ _. has_room self.new n) }
        ensures heard { (calls : List DoorCall) → heard self.old calls → MatchResult result (λ _. heard self.new calls) (λ _. heard self.new (calls ++ LineFailed ∷ [])) }
        ensures counts { (counts : ReadCounts) → has_read self.old counts → has_read self.new counts };

    /// Ends the present connection, where there is one. It is no call that can fail.
    fn hang_up(&mut self)
        ensures after { Tells (told self.old) (λ facts. told self.new ≡ Some (after_hang_up facts)) }
        ensures door { door_faults self.new ≡ door_faults self.old }
        ensures line { connection_faults self.new ≡ connection_faults self.old }
        ensures served { (n : ℕ) → serves self.old n → serves self.new n }
        ensures spare { (n : ℕ) → has_room self.old n → has_room self.new n }
        ensures heard { (calls : List DoorCall) → heard self.old calls → heard self.new calls }
        ensures counts { (counts : ReadCounts) → has_read self.old counts → has_read self.new counts };
}
