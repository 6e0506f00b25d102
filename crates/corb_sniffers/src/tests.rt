//! Windows and what each sniffer says of them.

use crate::{has_breaker, sniffs_html, sniffs_json, sniffs_xml};

/// Windows, each with whether it sniffs as HTML.
const PAGES: [(&[u8], bool); 20] = [
    (b"<!-- x --> <HTML>", true),
    (b"hello", false),
    // a comment isn't closed at its place 2 or 3
    (b"<!--><p> ", false),
    (b"<!---><p> ", false),
    (b"<!--->--><p> ", true),
    (b"<!--><p> --><p>", true),
    (b"<!----><p> ", true),
    (b"<!-- a --> --><p>", false),
    (b"<!-- <p> -- > --->\n\t<!----><p>", true),
    (b"<!-- <p>", false),
    (b" \t\n\x0c\r<a ", true),
    (b"\x0b<a ", false),
    // a tag has an end
    (b"<br", false),
    (b"<br>", true),
    (b"<br/>", false),
    (b"<b>", true),
    (b"<bra>", false),
    (b"<bod>", false),
    (b"x<p>", false),
    (b"", false),
];

/// The tags, in ASCII lowercase.
const TAGS: [&[u8]; 16] = [
    b"<!doctype html",
    b"<html",
    b"<head",
    b"<script",
    b"<iframe",
    b"<h1",
    b"<div",
    b"<font",
    b"<table",
    b"<a",
    b"<style",
    b"<title",
    b"<b",
    b"<body",
    b"<br",
    b"<p",
];

#[test]
fn pages_are_white_space_comments_and_a_tag(rt: HostRuntime) {
    for (window, sniffs) in PAGES {
        assert_eq!(rt; sniffs_html(window), sniffs, "{window:?}");
    }
}

#[test]
fn tags_are_taken_in_either_case(rt: HostRuntime) {
    for tag in TAGS {
        for end in [b' ', b'>', b'/'] {
            let mut window = [0; 16];
            let mut capitals = [0; 16];
            if tag.len() < 16 {
                window[..tag.len()].copy_from_slice(tag);
                window[tag.len()] = end;
            }
            for (to, from) in capitals.iter_mut().zip(&window) {
                *to = from.to_ascii_uppercase();
            }
            assert_eq!(rt; sniffs_html(&window), end != b'/', "{window:?}");
            assert_eq!(rt; sniffs_html(&capitals), end != b'/', "{capitals:?}");
        }
        assert!(rt; !sniffs_html(tag), "{tag:?}");
    }
}

/// A window, and whether it is sniffed as XML.
const DECLARATIONS: [(&[u8], bool); 6] = [
    (b"<?xml version=", true),
    (b" \t\n\x0c\r<?xml", true),
    (b"<?xm", false),
    (b"<?XML", false),
    (b"<!-- --><?xml", false),
    (b"", false),
];

#[test]
fn xml_begins_with_its_declaration(rt: HostRuntime) {
    for (window, sniffs) in DECLARATIONS {
        assert_eq!(rt; sniffs_xml(window), sniffs, "{window:?}");
    }
}

/// A window, and whether it is sniffed as JSON.
const OBJECTS: [(&[u8], bool); 14] = [
    (b"{\"a\" : 1}", true),
    (b"{\"a\\\"b\":", true),
    (b" \t\n\r{\r\"\"\t:", true),
    (b"\x0c{\"a\":", false),
    (b"{\"\xff\x7f\\\\\\\xff\":", true),
    (b"{\"a\x1f\":", false),
    (b"{\"a\\\x1f\":", false),
    (b"{\"a\\\"", false),
    (b"{\"a\"", false),
    (b"{\"a\\", false),
    (b"{a:", false),
    (b"{'a':", false),
    (b"[{\"a\":", false),
    (b"", false),
];

#[test]
fn objects_begin_with_a_name_and_a_colon(rt: HostRuntime) {
    for (window, sniffs) in OBJECTS {
        assert_eq!(rt; sniffs_json(window), sniffs, "{window:?}");
    }
}

/// A window, and whether it has a parser breaker.
const BROKEN: [(&[u8], bool); 12] = [
    (b")]}'", true),
    (b"{}&&", true),
    (b"{} &&", true),
    (b"for(;;);", true),
    (b"while(1);", true),
    (b" \t\n\x0c\r                    )]}'\n", true),
    (b")]}", false),
    (b"{}  &&", false),
    (b"for(;;)", false),
    (b"WHILE(1);", false),
    (b"\x0bfor(;;);", false),
    (b"", false),
];

#[test]
fn breakers_stand_after_white_space(rt: HostRuntime) {
    for (window, breaks) in BROKEN {
        assert_eq!(rt; has_breaker(window), breaks, "{window:?}");
    }
}
