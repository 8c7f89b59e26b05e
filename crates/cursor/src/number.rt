// The number that begins at a place of a sheet.
ghost use Rattle.std.specs.Prelude.{◌≡◌};
ghost use Rattle.format.specs.Numbers.{number_at};

use format::fault::{ReadFault, Reason};

// The number's value with the place after it. Each byte but the last has 128 added to its seven bits.
#[inline(always)]
pub(crate) fn number_in(sheet: &[u8], start: usize) -> Result<(u16, usize), ReadFault>
    ensures { result ≡ number_at sheet.now start }
{
    if start >= sheet.len() {
        return Err(ReadFault {
            reason: Reason::Ends,
            offset: sheet.len(),
        });
    }
    match &sheet[start..] {
        [one, ..] if *one < 128 => Ok((u16::from(*one), start + 1)),
        [128, ..] => Err(ReadFault {
            reason: Reason::Form,
            offset: start,
        }),
        [one, two, ..] if *two < 128 => {
            Ok((u16::from(*one - 128) * 128 + u16::from(*two), start + 2))
        }
        [one, two, three, ..] if *three < 128 => {
            let high = u32::from(*one - 128) * 128 + u32::from(*two - 128);
            u16::try_from(high * 128 + u32::from(*three))
                .map(|value| (value, start + 3))
                .map_err(|_| ReadFault {
                    reason: Reason::Form,
                    offset: start + 2,
                })
        }
        [_, _, _, ..] => Err(ReadFault {
            reason: Reason::Form,
            offset: start,
        }),
        _ => Err(ReadFault {
            reason: Reason::Ends,
            offset: start,
        }),
    }
}
