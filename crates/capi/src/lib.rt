// The C interface: the operations with slices as pointer and length, and the answer as four 64-bit words. Each takes the operation's own
// arguments, one by one, as C passes them.
#![tactic(auto, using(crate::proofs::Words::reported, crate::proofs::Words::said, crate::proofs::Words::reported_fit))]

ghost use Rattle.std.specs.Prelude.{◌≡◌, length};
ghost use Rattle.steps.specs.Operations.{split_outcome, split_shares, join_outcome, join_shares};
ghost use Rattle.decomposition.specs.Record.{read_outcome};
ghost use Rattle.decomposition.specs.Check.{check_outcome};
ghost use Rattle.decomposition.specs.Fit.{fit_end, house_end};
ghost use Rattle.sbox.specs.Operations.{sbox_outcome, sbox_output, watch_outcome, watch_output};
ghost use Rattle.cipher.specs.Operations.{block_outcome, block_output, watch_outcome as block_watch_outcome, watch_output as block_watch_output};
ghost use Rattle.cipher.specs.OpenOperations.{open_outcome, open_output, watch_open_outcome, watch_open_output};
ghost use Rattle.present.specs.Present.{size80};
ghost use Rattle.unshared.specs.Operations.{unshared_outcome, encrypt_output, decrypt_output};
ghost use Rattle.aes.specs.Operations.{block_outcome as aes_block_outcome, block_output as aes_block_output, watch_outcome as aes_watch_outcome, watch_output as aes_watch_output};
ghost use Rattle.refusal.specs.Words.{words};
ghost use Rattle.capi.specs.Words.{Reported, ReportedFit};

use refusal::answer_words;

// Read hands back the width.
#[unsafe(no_mangle)]
pub extern "C" fn ll_read(record: &[u8], answer: &mut [u64; 4])
    ensures { answer.new ≡ words (read_outcome «record».now) }
{
    *answer = answer_words(decomposition::read(record));
}

// Check hands nothing back.
#[unsafe(no_mangle)]
pub extern "C" fn ll_check(record: &[u8], table: &[u8], answer: &mut [u64; 4])
    ensures { answer.new ≡ words (check_outcome «record».now table.now) }
{
    *answer = answer_words(decomposition::check(record, table));
}

// Fit hands nothing back.
#[unsafe(no_mangle)]
pub extern "C" fn ll_fit(
    width: u32,
    bits: u32,
    table: &[u8],
    basis: &[u8],
    work: &mut [u8],
    record: &mut [u8],
    answer: &mut [u64; 4],
)
    ensures { ReportedFit (fit_end width bits
        (record { table = table.now; basis = basis.now; work = work.old; out = «record».old }))
        answer.new work.new «record».new }
{
    *answer = answer_words(decomposition::fit(width, bits, table, basis, work, record));
}

// House fit hands nothing back.
#[unsafe(no_mangle)]
pub extern "C" fn ll_house_fit(
    table: &[u8],
    work: &mut [u8],
    record: &mut [u8],
    answer: &mut [u64; 4],
)
    ensures { ReportedFit (house_end table.now work.old «record».old)
        answer.new work.new «record».new }
{
    *answer = answer_words(decomposition::house_fit(table, work, record));
}

// S-box hands back how many products, random bytes and steps it took.
#[unsafe(no_mangle)]
pub extern "C" fn ll_sbox(
    record: &[u8],
    s: u32,
    shares: &[u8],
    random: &[u8],
    out: &mut [u8],
    answer: &mut [u64; 4],
)
    ensures { Reported
        (sbox_outcome «record».now s shares.now random.now (length out.old))
        (sbox_output «record».now s shares.now random.now)
        out.old answer.new out.new }
{
    *answer = answer_words(sbox::sbox(record, s, shares, random, out));
}

// Watch S-box hands back the same.
#[unsafe(no_mangle)]
pub extern "C" fn ll_sbox_watch(
    record: &[u8],
    s: u32,
    shares: &[u8],
    random: &[u8],
    list: &[u32],
    values: &mut [u8],
    answer: &mut [u64; 4],
)
    ensures { Reported
        (watch_outcome «record».now s shares.now random.now list.now (length values.old))
        (watch_output «record».now s shares.now random.now list.now)
        values.old answer.new values.new }
{
    *answer = answer_words(sbox::watch_sbox(record, s, shares, random, list, values));
}

// Block hands back how many products, random bytes and steps it took.
#[unsafe(no_mangle)]
pub extern "C" fn ll_block(
    record: &[u8],
    s: u32,
    key_shares: &[u8],
    block_shares: &[u8],
    random: &[u8],
    out: &mut [u8],
    answer: &mut [u64; 4],
)
    ensures { Reported
        (block_outcome «record».now s key_shares.now block_shares.now random.now (length out.old))
        (block_output «record».now s key_shares.now block_shares.now random.now)
        out.old answer.new out.new }
{
    *answer = answer_words(cipher::block(record, s, key_shares, block_shares, random, out));
}

// Watch block hands back the same.
#[unsafe(no_mangle)]
pub extern "C" fn ll_block_watch(
    record: &[u8],
    s: u32,
    key_shares: &[u8],
    block_shares: &[u8],
    random: &[u8],
    list: &[u32],
    values: &mut [u8],
    answer: &mut [u64; 4],
)
    ensures { Reported
        (block_watch_outcome «record».now s key_shares.now block_shares.now random.now list.now (length values.old))
        (block_watch_output «record».now s key_shares.now block_shares.now random.now list.now)
        values.old answer.new values.new }
{
    *answer = answer_words(cipher::watch_block(
        record,
        s,
        key_shares,
        block_shares,
        random,
        list,
        values,
    ));
}

// Open hands back the same.
#[unsafe(no_mangle)]
pub extern "C" fn ll_open(
    record: &[u8],
    inverse_record: &[u8],
    s: u32,
    key_shares: &[u8],
    block_shares: &[u8],
    random: &[u8],
    out: &mut [u8],
    answer: &mut [u64; 4],
)
    ensures { Reported
        (open_outcome «record».now inverse_record.now s key_shares.now block_shares.now random.now (length out.old))
        (open_output «record».now inverse_record.now s key_shares.now block_shares.now random.now)
        out.old answer.new out.new }
{
    *answer = answer_words(cipher::open(
        record,
        inverse_record,
        s,
        key_shares,
        block_shares,
        random,
        out,
    ));
}

// Watch open hands back the same.
#[unsafe(no_mangle)]
pub extern "C" fn ll_open_watch(
    record: &[u8],
    inverse_record: &[u8],
    s: u32,
    key_shares: &[u8],
    block_shares: &[u8],
    random: &[u8],
    list: &[u32],
    values: &mut [u8],
    answer: &mut [u64; 4],
)
    ensures { Reported
        (watch_open_outcome «record».now inverse_record.now s key_shares.now block_shares.now random.now list.now (length values.old))
        (watch_open_output «record».now inverse_record.now s key_shares.now block_shares.now random.now list.now)
        values.old answer.new values.new }
{
    *answer = answer_words(cipher::watch_open(
        record,
        inverse_record,
        s,
        key_shares,
        block_shares,
        random,
        list,
        values,
    ));
}

// Encrypt hands nothing back.
#[unsafe(no_mangle)]
pub extern "C" fn ll_encrypt(key: &[u8], block: &[u8], out: &mut [u8], answer: &mut [u64; 4])
    ensures { Reported
        (unshared_outcome size80 (length key.now) (length block.now) (length out.old))
        (encrypt_output size80 key.now block.now)
        out.old answer.new out.new }
{
    *answer = answer_words(unshared::encrypt(key, block, out));
}

// Decrypt hands nothing back.
#[unsafe(no_mangle)]
pub extern "C" fn ll_decrypt(key: &[u8], block: &[u8], out: &mut [u8], answer: &mut [u64; 4])
    ensures { Reported
        (unshared_outcome size80 (length key.now) (length block.now) (length out.old))
        (decrypt_output size80 key.now block.now)
        out.old answer.new out.new }
{
    *answer = answer_words(unshared::decrypt(key, block, out));
}

// AES block hands back how many products, random bytes and steps it took.
#[unsafe(no_mangle)]
pub extern "C" fn ll_aes_block(
    s: u32,
    key_shares: &[u8],
    block_shares: &[u8],
    random: &[u8],
    out: &mut [u8],
    answer: &mut [u64; 4],
)
    ensures { Reported
        (aes_block_outcome s key_shares.now block_shares.now random.now (length out.old))
        (aes_block_output s key_shares.now block_shares.now random.now)
        out.old answer.new out.new }
{
    *answer = answer_words(aes::block(s, key_shares, block_shares, random, out));
}

// Watch AES block hands back the same.
#[unsafe(no_mangle)]
pub extern "C" fn ll_aes_block_watch(
    s: u32,
    key_shares: &[u8],
    block_shares: &[u8],
    random: &[u8],
    list: &[u32],
    values: &mut [u8],
    answer: &mut [u64; 4],
)
    ensures { Reported
        (aes_watch_outcome s key_shares.now block_shares.now random.now list.now (length values.old))
        (aes_watch_output s key_shares.now block_shares.now random.now list.now)
        values.old answer.new values.new }
{
    *answer = answer_words(aes::watch_block(s, key_shares, block_shares, random, list, values));
}

// Split hands nothing back.
#[unsafe(no_mangle)]
pub extern "C" fn ll_split(
    value: &[u8],
    s: u32,
    masks: &[u8],
    out: &mut [u8],
    answer: &mut [u64; 4],
)
    ensures { Reported (split_outcome (length value.now) s (length masks.now) (length out.old))
        (split_shares s value.now masks.now) out.old answer.new out.new }
{
    *answer = answer_words(steps::split(value, s, masks, out));
}

// Join hands nothing back.
#[unsafe(no_mangle)]
pub extern "C" fn ll_join(shares: &[u8], s: u32, out: &mut [u8], answer: &mut [u64; 4])
    ensures { Reported (join_outcome (length shares.now) s (length out.old))
        (join_shares (length out.old) s shares.now) out.old answer.new out.new }
{
    *answer = answer_words(steps::join(shares, s, out));
}
