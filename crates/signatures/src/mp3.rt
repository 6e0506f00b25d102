//! MP3 without an ID3 tag (WHATWG MIME Sniffing 6.2.3).
ghost use Rattle.std.specs.Prelude.{◌≡◌, ◌↔◌, IsTrue, List, ℕ, ◌<◌, ◌≤◌};
ghost use Rattle.signatures.specs.Mpeg.{IsMpegFrame, is_mpeg_window, is_frame_header, is_layer_3 as layer_3};
ghost use Rattle.signatures.specs.Mpeg.{frame_size as size_of_frame, bit_rate as rate_of_bits, sample_rate as rate_of_samples};

use crate::patterns::from_offset;

/// Kilobits a second of version 1, for the indices 1 to 14.
static VERSION_1_BIT_RATES: [u16; 14] = [
    32, 40, 48, 56, 64, 80, 96, 112, 128, 160, 192, 224, 256, 320,
];

/// Kilobits a second of versions 2 and 2.5, for the indices 1 to 14.
static VERSION_2_BIT_RATES: [u16; 14] = [8, 16, 24, 32, 40, 48, 56, 64, 80, 96, 112, 128, 144, 160];

/// Samples a second of versions 1, 2 and 2.5, for the indices 0 to 2.
static VERSION_1_SAMPLE_RATES: [u16; 3] = [44_100, 48_000, 32_000];

static VERSION_2_SAMPLE_RATES: [u16; 3] = [22_050, 24_000, 16_000];

static VERSION_2_5_SAMPLE_RATES: [u16; 3] = [11_025, 12_000, 8_000];

/// Whether the window begins with the header of an MPEG audio frame of layer 3, and has another
/// where that frame ends.
#[tactic(auto, unfolding(crate::specs::Mpeg::is_mpeg_window))]
pub fn is_mp3(window: &[u8]) -> bool
    ensures test { result ≡ is_mpeg_window window.now }
    ensures signature { IsTrue result ↔ IsMpegFrame window.now }
{
    match window {
        [_, second, third, ..] if has_header_at(0, window) => {
            has_header_at(frame_size(*second, *third), window)
        }
        _ => false,
    }
}

/// Whether a frame's header of layer 3 stands at the offset.
fn has_header_at(offset: usize, window: &[u8]) -> bool
    ensures { result ≡ is_frame_header offset window.now }
{
    match from_offset(offset, window) {
        [0xff, second, third, _, ..] => is_layer_3(*second, *third),
        _ => false,
    }
}

/// Whether a header of layer 3 has this second and third byte.
fn is_layer_3(second: u8, third: u8) -> bool
    ensures { result ≡ layer_3 second third }
{
    second & 0xe0 == 0xe0
        && second & 0x18 != 0x08
        && second & 0x06 == 0x02
        && 1 <= third / 16
        && third / 16 <= 14
        && (third & 0x0c) / 4 <= 2
}

/// The size of the frame whose header has this second and third byte.
fn frame_size(second: u8, third: u8) -> usize
    requires { IsTrue (layer_3 second third) }
    ensures { result ≡ size_of_frame second third }
{
    let version = second & 0x18;
    let scale = if version == 0x18 { 144_000 } else { 72_000 };
    let bits = bit_rate(version, third / 16);
    let samples = sample_rate(version, (third & 0x0c) / 4);
    scale * usize::from(bits) / usize::from(samples) + usize::from((third & 0x02) / 2)
}

/// Kilobits a second, for the version bits and the index of a header.
#[tactic(auto, unfolding(crate::specs::Mpeg::version_1_bit_rates, crate::specs::Mpeg::version_2_bit_rates))]
fn bit_rate(version: u8, index: u8) -> u16
    requires from { 1 ≤ index }
    requires to { index ≤ 14 }
    ensures { result ≡ rate_of_bits version index }
{
    let rates = if version == 0x18 {
        &VERSION_1_BIT_RATES
    } else {
        &VERSION_2_BIT_RATES
    };
    rates[usize::from(index) - 1]
}

/// Samples a second, for the version bits and the index of a header.
#[tactic(auto, unfolding(crate::specs::Mpeg::version_1_sample_rates, crate::specs::Mpeg::version_2_sample_rates, crate::specs::Mpeg::version_2_5_sample_rates,))]
fn sample_rate(version: u8, index: u8) -> u16
    requires { index ≤ 2 }
    ensures value { result ≡ rate_of_samples version index }
    ensures some { 0 < result }
{
    let rates = match version {
        0x18 => &VERSION_1_SAMPLE_RATES,
        0x10 => &VERSION_2_SAMPLE_RATES,
        _ => &VERSION_2_5_SAMPLE_RATES,
    };
    rates[usize::from(index)]
}

#[cfg(test)]
mod tests {
    use super::*;

    /// The second and third byte of the headers, the offset of the second header, and whether they match.
    const HEADERS: [(u8, u8, usize, bool); 10] = [
        // 128 kilobits at 44,100 samples: 417 bytes, and one of padding
        (0xfb, 0x90, 417, true),
        (0xfb, 0x92, 417, false),
        (0xfb, 0x92, 418, true),
        // 64 kilobits at 22,050 samples, and at 11,025
        (0xf3, 0x80, 208, true),
        (0xe3, 0x80, 417, true),
        // no free or forbidden bit rate, no reserved sample rate, no reserved version, no layer 2
        (0xfb, 0x00, 417, false),
        (0xfb, 0xf0, 417, false),
        (0xfb, 0x9c, 417, false),
        (0xeb, 0x90, 417, false),
        (0xfd, 0x90, 417, false),
    ];

    #[test]
    fn a_second_header_follows_the_first_frame(rt: HostRuntime) {
        for (second, third, offset, matches) in HEADERS {
            let mut window = [0; 422];
            for start in [0, offset] {
                if start <= 418 {
                    window[start..start + 4].copy_from_slice(&[0xff, second, third, 0]);
                }
            }
            let (shown, _) = window.split_at(usize::min(offset, 418) + 4);
            assert_eq!(rt; is_mp3(shown), matches, "{second} {third} {offset}");
            let (shorter, _) = window.split_at(usize::min(offset, 418) + 3);
            assert!(rt; !is_mp3(shorter), "{second} {third} {offset}");
        }
    }
}
