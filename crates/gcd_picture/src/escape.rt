// Texts within an SVG page, and within JSON.

use std::alloc::AllocError;

/// Adds a letter to an SVG page.
pub fn push_xml_char(into: &mut String, c: char) -> Result<(), AllocError> {
    match c {
        '&' => into.push_str("&amp;"),
        '<' => into.push_str("&lt;"),
        '>' => into.push_str("&gt;"),
        '"' => into.push_str("&quot;"),
        _ => into.push(c),
    }
}

/// Adds a text to an SVG page, as text or as an attribute's value.
pub fn push_xml(into: &mut String, text: &str) -> Result<(), AllocError> {
    for c in text.chars() {
        push_xml_char(into, c)?;
    }
    Ok(())
}

/// Adds a text to a text of JSON, without the quotes about it. What no name or path has, a character below 32, becomes a space.
pub fn push_json(into: &mut String, text: &str) -> Result<(), AllocError> {
    for c in text.chars() {
        match c {
            '"' => into.push_str("\\\"")?,
            '\\' => into.push_str("\\\\")?,
            _ => into.push(if (c as u32) < 32 { ' ' } else { c })?,
        }
    }
    Ok(())
}
