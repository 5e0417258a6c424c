//! Who may read and write a pool, by its mode.
#![tactic(auto)]

ghost use Rattle.std.specs.Prelude.{◌≡◌};
ghost use Rattle.pud_defs.specs.RegistryTables.Spaces.{owner as owner_and};
ghost use Rattle.pud_defs.specs.Formats.Rights.{digit_for, may_read, may_write};

/// The octal digit of `mode` that counts for this user: the owner's if the users are equal, else the group's if the
/// groups are equal, else that of the others.
fn digit_for(mode: u32, owner: u32, group: u32, uid: u32, gid: u32) -> u32
    ensures { result ≡ digit_for mode (owner_and owner group) (owner_and uid gid) }
{
    if owner == uid {
        mode / 64 % 8
    } else if group == gid {
        mode / 8 % 8
    } else {
        mode % 8
    }
}

/// Whether the user `uid` of the group `gid` may read a pool of this owner, group and mode. One digit of the mode
/// decides: for the owner the owner's digit, whatever the groups are, else for the group the group's digit, else the
/// last digit. The user may read if this digit has the bit 4. Every mode gives an answer, also a mode that no pool may
/// have.
pub fn may_read(mode: u32, owner: u32, group: u32, uid: u32, gid: u32) -> bool
    ensures { result ≡ may_read mode (owner_and owner group) (owner_and uid gid) }
{
    digit_for(mode, owner, group, uid, gid) / 4 % 2 == 1
}

/// Whether the user `uid` of the group `gid` may write a pool of this owner, group and mode. The same digit decides as
/// in [`may_read`]. The user may write if this digit has the bit 2, whether the user may read or not. Every mode gives
/// an answer, also a mode that no pool may have.
pub fn may_write(mode: u32, owner: u32, group: u32, uid: u32, gid: u32) -> bool
    ensures { result ≡ may_write mode (owner_and owner group) (owner_and uid gid) }
{
    digit_for(mode, owner, group, uid, gid) / 2 % 2 == 1
}
