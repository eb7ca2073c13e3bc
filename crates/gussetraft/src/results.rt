// Stored results. An answer's 16 or 12 bytes are more than every machine returns by value in the same way, so its numbers are written to a list;
// the refusal is given too.
ghost use Rattle.std.specs.Prelude.{◌≡◌};
ghost use Rattle.rules.specs.Stored.{pack_outcome, unpack_outcome, id_at, id_whole};
ghost use Rattle.stored.specs.Into.{leaves, stored_into, leaves_id, id_into};

use stored::into::{id_at_into, id_at_whole_into, pack_into, unpack_into};

#[unsafe(no_mangle)]
pub extern "C" fn gussetraft_pack_into(file: &[u8], out: &mut [u8], answer: &mut [u64]) -> u32
    ensures { leaves result out.new answer.new
        ≡ stored_into (pack_outcome file.now out.old) out.old answer.old }
{
    pack_into(file, out, answer)
}

#[unsafe(no_mangle)]
pub extern "C" fn gussetraft_unpack_into(file: &[u8], out: &mut [u8], answer: &mut [u64]) -> u32
    ensures { leaves result out.new answer.new
        ≡ stored_into (unpack_outcome file.now out.old) out.old answer.old }
{
    unpack_into(file, out, answer)
}

#[unsafe(no_mangle)]
pub extern "C" fn gussetraft_id_at_into(file: &[u8], span: u32, answer: &mut [u32]) -> u32
    ensures { leaves_id result answer.new ≡ id_into (id_at file.now span) answer.old }
{
    id_at_into(file, span, answer)
}

#[unsafe(no_mangle)]
pub extern "C" fn gussetraft_id_at_whole_into(file: &[u8], span: u32, answer: &mut [u32]) -> u32
    ensures { leaves_id result answer.new ≡ id_into (id_whole file.now span) answer.old }
{
    id_at_whole_into(file, span, answer)
}
