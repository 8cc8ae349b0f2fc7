// The permutation, the block operations and sealing: each call forwards, and hands on its answer's number.
// The two of a pair stay apart: each has its name in C.
ghost use Rattle.std.specs.Prelude.{◌≡◌};
ghost use Rattle.pi.specs.Table.{S};
ghost use Rattle.pi.specs.Permutation.{round, round⁻, π, π⁻, Permuted, Rounded};
ghost use Rattle.sponge.specs.Blink.{get, enc, dec, Put, Ran};
ghost use Rattle.aead.specs.Sealing.{Sealed, Opened};

use super::number_of;

// ---- The permutation.
#[unsafe(no_mangle)]
pub extern "C" fn nb_permute(state: &mut [u8]) -> u8
    ensures { Permuted π state.old result state.new }
{
    number_of(permutation::permute(state))
}

#[unsafe(no_mangle)]
pub extern "C" fn nb_permute_back(state: &mut [u8]) -> u8
    ensures { Permuted π⁻ state.old result state.new }
{
    number_of(permutation::permute_back(state))
}

#[unsafe(no_mangle)]
pub extern "C" fn nb_round(state: &mut [u8], key: &[u8]) -> u8
    ensures { Rounded round key.now state.old result state.new }
{
    number_of(permutation::round(state, key))
}

#[unsafe(no_mangle)]
pub extern "C" fn nb_round_back(state: &mut [u8], key: &[u8]) -> u8
    ensures { Rounded round⁻ key.now state.old result state.new }
{
    number_of(permutation::round_back(state, key))
}

#[unsafe(no_mangle)]
pub extern "C" fn nb_minibox(x: u8) -> u8
    ensures { result ≡ S x }
{
    permutation::minibox(x)
}

// ---- The block operations.
#[unsafe(no_mangle)]
pub extern "C" fn nb_put(state: &mut [u8], bytes: &[u8], domain: u8) -> u8
    ensures { Put domain bytes.now state.old result state.new }
{
    number_of(sponge::put(state, bytes, domain))
}

#[unsafe(no_mangle)]
pub extern "C" fn nb_get(state: &mut [u8], out: &mut [u8], domain: u8) -> u8
    ensures { Ran get domain out.old state.old out.old
        result state.new out.new }
{
    number_of(sponge::get(state, out, domain))
}

#[unsafe(no_mangle)]
pub extern "C" fn nb_enc(state: &mut [u8], message: &[u8], out: &mut [u8], domain: u8) -> u8
    ensures { Ran enc domain message.now state.old out.old
        result state.new out.new }
{
    number_of(sponge::enc(state, message, out, domain))
}

#[unsafe(no_mangle)]
pub extern "C" fn nb_dec(state: &mut [u8], cipher: &[u8], out: &mut [u8], domain: u8) -> u8
    ensures { Ran dec domain cipher.now state.old out.old
        result state.new out.new }
{
    number_of(sponge::dec(state, cipher, out, domain))
}

// ---- Sealing.
#[unsafe(no_mangle)]
pub extern "C" fn nb_seal(
    key: &[u8],
    nonce: &[u8],
    associated: &[u8],
    message: &[u8],
    out: &mut [u8],
) -> u8
    ensures { Sealed key.now nonce.now associated.now message.now
        out.old result out.new }
{
    number_of(aead::seal(key, nonce, associated, message, out))
}

#[unsafe(no_mangle)]
pub extern "C" fn nb_open(
    key: &[u8],
    nonce: &[u8],
    associated: &[u8],
    sealed: &[u8],
    out: &mut [u8],
) -> u8
    ensures { Opened key.now nonce.now associated.now sealed.now
        out.old result out.new }
{
    number_of(aead::open(key, nonce, associated, sealed, out))
}
