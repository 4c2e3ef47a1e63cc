//! How the page looks.

ghost use Rattle.std.specs.Prelude.{◌≡◌, false};
ghost use Rattle.line_io.specs.Writes.{Writes};
ghost use Rattle.atlas_page.specs.Style.{style_text};

use le_rec::Sink;
use line_io::{IoFault, emit};

/// The style sheet, a rule a line.
pub const STYLE: &[u8] = b"<style>\n\
    :root{color-scheme:dark light;--ground:#15171b;--panel:#1d2026;--rule:#31363e;--edge:#7b828d;--ink:#eae7e0;--soft:#a3a8b0;--fault:#ff7f6b;--fault-wash:#3d2321;--note:#dcc78f;--note-wash:#332d1e;--warning:#ffb84d;--warning-wash:#472e08;--sound:#8ecf9f;--sound-wash:#1c3226}\n\
    @media print,(prefers-color-scheme:light){:root{--ground:#efece5;--panel:#fbf9f5;--rule:#d9d4c8;--edge:#7f7c74;--ink:#1f2124;--soft:#595c61;--fault:#b02a1a;--fault-wash:#f6dfd9;--note:#6b4f17;--note-wash:#efe5cb;--warning:#7a4300;--warning-wash:#fcdca4;--sound:#1f6637;--sound-wash:#d9eadb}}\n\
    *{box-sizing:border-box}\n\
    body{margin:0 auto;max-width:1800px;padding:36px clamp(16px,3vw,48px) 56px;background:var(--ground);color:var(--ink);font:15px/1.5 -apple-system,\"Segoe UI\",Roboto,\"Noto Sans\",\"Liberation Sans\",Arial,sans-serif;font-variant-numeric:tabular-nums lining-nums;overflow-wrap:anywhere}\n\
    h1,h2{margin:0;font:600 21px/1.25 \"Iowan Old Style\",Palatino,\"Palatino Linotype\",\"URW Palladio L\",\"Liberation Serif\",Cambria,serif}\n\
    h1{margin-right:auto;font-size:44px;line-height:1;letter-spacing:-.01em}\n\
    p,ul,ol{margin:0;padding:0;list-style:none}\n\
    header{display:flex;flex-wrap:wrap;align-items:end;gap:18px 40px;margin-bottom:32px}\n\
    .totals{display:flex;flex-wrap:wrap;gap:10px clamp(16px,2.5vw,32px);color:var(--soft);font-size:13px;line-height:1.3}\n\
    .totals b{display:block;color:var(--ink);font-size:20px}\n\
    .day{color:var(--soft);font-size:13px}\n\
    .unlooked{flex-basis:100%;color:var(--soft);font-size:13px}\n\
    .legend{flex-basis:100%;columns:360px;column-gap:36px;color:var(--soft);font-size:13px}\n\
    .legend:empty{display:none}\n\
    .legend b{display:inline-block;min-width:34px;color:var(--note)}\n\
    .legend .fault b{color:var(--fault)}\n\
    .legend .warning b{color:var(--warning)}\n\
    .refused{flex-basis:100%;padding:12px 18px;background:var(--fault-wash);border-radius:10px;columns:400px;column-gap:36px}\n\
    .refused li{break-inside:avoid}\n\
    .refused b{color:var(--fault)}\n\
    main>ol{display:grid;grid-template-columns:repeat(auto-fill,minmax(min(100%,320px),1fr));gap:26px 24px}\n\
    main>ol>li{display:flex;flex-direction:column;background:var(--panel);border:1px solid var(--rule);border-radius:10px;break-inside:avoid}\n\
    main>ol>li:hover{border-color:var(--edge)}\n\
    main>ol>.faulty{border-color:var(--fault)}\n\
    .map{display:grid;place-items:center;aspect-ratio:4/3;overflow:hidden;border-radius:9px 9px 0 0;background:#14161a;color:#a3a8b0;-webkit-print-color-adjust:exact;print-color-adjust:exact}\n\
    p.map{background:repeating-linear-gradient(-45deg,#14161a 0 9px,#191c21 9px 18px)}\n\
    .map:focus-visible{outline:3px solid #63c8da;outline-offset:-3px}\n\
    .map img{width:100%;height:100%;min-height:0;padding:10px;object-fit:contain;transition:transform .2s}\n\
    .map:hover img{transform:scale(1.04)}\n\
    main div{flex:1;display:flex;flex-direction:column;padding:13px 16px 14px}\n\
    .where{margin-top:1px;max-height:7.5em;overflow:auto;scrollbar-width:thin;color:var(--soft);font-size:13px}\n\
    .where span::before{content:\"\\b7  \"}\n\
    .found{display:flex;flex-wrap:wrap;gap:6px;margin:9px 0 13px}\n\
    .found li{padding:0 9px;border-radius:99px;background:var(--note-wash);color:var(--note);font-weight:600;font-size:13px;line-height:22px}\n\
    .found .fault{background:var(--fault-wash);color:var(--fault)}\n\
    .found .warning{background:var(--warning-wash);color:var(--warning)}\n\
    .found .sound{background:var(--sound-wash);color:var(--sound)}\n\
    .messages{margin-bottom:13px;max-height:13em;overflow:auto;scrollbar-width:thin;color:var(--soft);font-size:12px;line-height:1.4}\n\
    .messages li{margin-bottom:5px;padding-left:8px;border-left:3px solid var(--note)}\n\
    .messages .fault{border-color:var(--fault)}\n\
    .messages .warning{border-color:var(--warning)}\n\
    .messages a{color:inherit;text-decoration-color:var(--edge);text-underline-offset:2px}\n\
    .messages a:hover{text-decoration-color:currentColor}\n\
    .counts{display:grid;grid-template-columns:repeat(4,1fr);gap:7px 8px;margin-top:auto;padding-top:11px;border-top:1px solid var(--rule);color:var(--soft);font-size:12px;line-height:1.3}\n\
    .counts b{display:block;color:var(--ink);font-size:14px}\n\
    .told{margin-top:9px}\n\
    .faulty h2,.faulty .told{color:var(--fault)}\n\
    @media(max-width:700px){p.map{aspect-ratio:4}}\n\
    @media print{body{padding:0;background:none}main>ol{grid-template-columns:repeat(3,1fr);gap:14px}}\n\
    @media(prefers-reduced-motion:reduce){.map img{transition:none}}\n\
    </style>\n";

/// Writes the style sheet.
pub fn write_style<W: Sink>(out: &mut W) -> Result<(), IoFault>
    requires { (W.state out.old).failed ≡ false }
    ensures { Writes (W.state out.old) (W.state out.new) style_text result }
{
    emit(out, STYLE)
}
