//! The text of a MIME type (WHATWG MIME Sniffing 4.5).
ghost use Rattle.std.specs.Prelude.{◌≡◌, ◌++◌, OnOk};
ghost use Rattle.mime_types.specs.Text.{value_text, parameter_text, text_of};
ghost use Rattle.mime_types.specs.Stored.{pair_in, record_in};

use crate::parameters::Parameter;
use crate::scanning::is_nonempty_token;
use orb_bytes::append_quoted;
use std::alloc::AllocError;

/// Appends the text of the MIME type of these parts.
pub(crate) fn append_text(
    text: &mut Vec<u8>,
    main: &[u8],
    sub: &[u8],
    parameters: &[Parameter],
) -> Result<(), AllocError>
    ensures { OnOk result (text.new.items
        ≡ text.old.items ++ text_of (record_in main.now sub.now parameters.now)) }
{
    text.extend_from_slice(main)?;
    text.push(b'/')?;
    text.extend_from_slice(sub)?;
    for parameter in parameters {
        append_parameter(text, parameter)?;
    }
    Ok(())
}

fn append_parameter(text: &mut Vec<u8>, parameter: &Parameter) -> Result<(), AllocError>
    ensures { OnOk result (text.new.items
        ≡ text.old.items ++ parameter_text (pair_in parameter.now)) }
{
    text.push(b';')?;
    text.extend_from_slice(&parameter.name)?;
    text.push(b'=')?;
    append_value(text, &parameter.value)
}

/// Appends the value as it is where it is a token, and else between quotes.
fn append_value(text: &mut Vec<u8>, value: &[u8]) -> Result<(), AllocError>
    ensures { OnOk result (text.new.items ≡ text.old.items ++ value_text value.now) }
{
    if is_nonempty_token(value) {
        return text.extend_from_slice(value);
    }
    append_quoted(text, value)
}
