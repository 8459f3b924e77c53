//! Targets of references (RFC 3986 section 5.4) and components (section 3).

use crate::tests::rows::same;
use iri_ref::{has_scheme, resolve, split};
use std::test::Fail;

// The base of section 5.4.
const EXAMPLE: &str = "http://a/b/c/d;p?q";

// Each row: a base, and references with their targets.
const TARGETS: [(&str, &[(&str, &str)]); 8] = [
    (
        EXAMPLE,
        &[
            ("g:h", "g:h"),
            ("g", "http://a/b/c/g"),
            ("./g", "http://a/b/c/g"),
            ("g/", "http://a/b/c/g/"),
            ("/g", "http://a/g"),
            ("//g", "http://g"),
            ("?y", "http://a/b/c/d;p?y"),
            ("g?y", "http://a/b/c/g?y"),
            ("#s", "http://a/b/c/d;p?q#s"),
            ("g#s", "http://a/b/c/g#s"),
            ("g?y#s", "http://a/b/c/g?y#s"),
            (";x", "http://a/b/c/;x"),
            ("g;x", "http://a/b/c/g;x"),
            ("g;x?y#s", "http://a/b/c/g;x?y#s"),
            ("", "http://a/b/c/d;p?q"),
            (".", "http://a/b/c/"),
            ("./", "http://a/b/c/"),
            ("..", "http://a/b/"),
            ("../", "http://a/b/"),
            ("../g", "http://a/b/g"),
            ("../..", "http://a/"),
            ("../../", "http://a/"),
            ("../../g", "http://a/g"),
        ],
    ),
    (
        EXAMPLE,
        &[
            ("../../../g", "http://a/g"),
            ("../../../../g", "http://a/g"),
            ("/./g", "http://a/g"),
            ("/../g", "http://a/g"),
            ("g.", "http://a/b/c/g."),
            (".g", "http://a/b/c/.g"),
            ("g..", "http://a/b/c/g.."),
            ("..g", "http://a/b/c/..g"),
            ("./../g", "http://a/b/g"),
            ("./g/.", "http://a/b/c/g/"),
            ("g/./h", "http://a/b/c/g/h"),
            ("g/../h", "http://a/b/c/h"),
            ("g;x=1/./y", "http://a/b/c/g;x=1/y"),
            ("g;x=1/../y", "http://a/b/c/y"),
            ("g?y/./x", "http://a/b/c/g?y/./x"),
            ("g?y/../x", "http://a/b/c/g?y/../x"),
            ("g#s/./x", "http://a/b/c/g#s/./x"),
            ("g#s/../x", "http://a/b/c/g#s/../x"),
            ("http:g", "http:g"),
        ],
    ),
    (
        "http://a",
        &[
            ("g", "http://a/g"),
            ("", "http://a"),
            ("?y", "http://a?y"),
            ("../g", "http://a/g"),
        ],
    ),
    (
        "http://a?q#f",
        &[
            ("g", "http://a/g"),
            ("#s", "http://a?q#s"),
            ("", "http://a?q"),
            ("//", "http://"),
        ],
    ),
    (
        "urn:a:b",
        &[("c", "urn:c"), ("#s", "urn:a:b#s"), ("/c", "urn:/c")],
    ),
    (
        "x:a/./b",
        &[("?y", "x:a/./b?y"), ("../c", "x:/c"), ("c", "x:a/c")],
    ),
    (
        "http://é/ü/ö?ä",
        &[
            ("ß/../λ", "http://é/ü/λ"),
            ("#→", "http://é/ü/ö?ä#→"),
            ("x:λ/../y", "x:λ/../y"),
        ],
    ),
    // Against a base of a scheme alone a path is the target's, its dot segments removed (section 5.2.4).
    (
        "x:",
        &[
            ("/a/b/c/./../../g", "x:/a/g"),
            ("mid/content=5/../6", "x:mid/6"),
            ("..", "x:"),
            (".", "x:"),
            ("./../a", "x:a"),
            ("/..", "x:/"),
            ("a/.", "x:a/"),
        ],
    ),
];

#[test]
fn targets(rt: HostRuntime) -> Result<(), Fail> {
    for (base, rows) in TARGETS {
        assert!(rt; has_scheme(base), "{base}");
        for (reference, target) in rows {
            let resolved = resolve(rt.alloc(), base, *reference)?;
            same(&rt, *reference, resolved.as_str(), *target);
        }
    }
    Ok(())
}

// Each row: a text, and its scheme, authority, path, query and fragment.
type Components = (
    &'static str,
    Option<&'static str>,
    Option<&'static str>,
    &'static str,
    Option<&'static str>,
    Option<&'static str>,
);

const COMPONENTS: [Components; 3] = [
    (
        "foo://example.com:8042/over/there?name=ferret#nose",
        Some("foo"),
        Some("example.com:8042"),
        "/over/there",
        Some("name=ferret"),
        Some("nose"),
    ),
    (
        "urn:example:animal:ferret:nose",
        Some("urn"),
        None,
        "example:animal:ferret:nose",
        None,
        None,
    ),
    ("//?#?", None, Some(""), "", Some(""), Some("?")),
];

#[test]
fn components(rt: HostRuntime) {
    for (text, scheme, authority, path, query, fragment) in COMPONENTS {
        let parts = split(text);
        same(
            &rt,
            text,
            (parts.scheme, parts.authority),
            (scheme, authority),
        );
        same(&rt, text, parts.path, path);
        same(&rt, text, (parts.query, parts.fragment), (query, fragment));
    }
}
