//! The style of a page. It has no byte that is escaped, so it stands in the page as it is.

pub const STYLE: &[u8] = b"\
:root{color-scheme:light dark;--paper:#fff;--band:#f3f5f8;--ink:#1b1f24;--soft:#57606a;--faint:#6b7480;--hair:#d8dee4;\
--past:#fff4d6;--pick:#ffdf5d;--bad:#c1121f;--kw:#5b2aa8;--val:#0a5f3c;--focus:#0b69b7;\
--sans:system-ui,-apple-system,Segoe UI,Roboto,Noto Sans,Liberation Sans,Arial,sans-serif;\
--mono:ui-monospace,Menlo,Consolas,DejaVu Sans Mono,monospace}\
@media(prefers-color-scheme:dark){:root{--paper:#0f1318;--band:#171d24;--ink:#e6edf3;--soft:#9aa6b2;--faint:#84909c;--hair:#2b333c;\
--past:#2d2713;--pick:#6b5800;--bad:#ff6b6b;--kw:#c8a8ff;--val:#7fdcae;--focus:#5cb3ff}}\
*{box-sizing:border-box}html{scroll-padding:5rem}\
body{margin:0;background:var(--paper);color:var(--ink);font:15px/1.5 var(--sans)}\
header{padding:14px 20px 10px;border-bottom:1px solid var(--hair)}header p{margin:0;color:var(--soft)}\
h1{margin:0;font:700 20px/1.4 var(--mono);overflow-wrap:anywhere}h2{margin:0 0 6px;font-size:13px;font-weight:600;color:var(--soft)}\
section{padding:14px 20px;min-width:0}a{color:inherit}\
.code{margin:0;padding:8px 0 8px 50px;background:var(--band);border-radius:8px;overflow-x:auto;font:13px/1.6 var(--mono)}\
.code li{white-space:pre-wrap;overflow-wrap:anywhere;padding:0 10px 0 6px}.code li::marker{color:var(--faint);font-size:11px}\
.code code{font:inherit}.code span{border-radius:3px}.code .k{color:var(--kw);font-weight:600}.code .t,.code .o{color:var(--soft)}\
.code .v{color:var(--val)}.code .c{color:var(--soft);font-style:italic}.code .n[class~=a0],.code .n[class~=a1],.code .n[class~=a2],\
.code .n[class~=a3],.code .n[class~=a4],.code .n[class~=a5],.code .n[class~=a6]{font-weight:700}\
.code li:target{background:var(--past)}.code .on{background:var(--pick)}.code .does{cursor:pointer}\
.out{margin:0;padding:8px 14px;list-style:none;background:var(--band);border-radius:8px;font:13px/1.7 var(--mono);max-height:16em;\
overflow:auto}.out li{white-space:pre}.out a{text-decoration:none}.out a:hover{text-decoration:underline}.ended{color:var(--soft)}\
.tab{position:absolute;opacity:0}.tabs{margin:0 0 10px;display:flex;flex-wrap:wrap}\
.tabs label{padding:7px 14px;border:1px solid var(--hair);background:var(--band);cursor:pointer;font-size:14px}\
.tabs label+label{border-left:0}\
#show-high:checked~.tabs label[for=show-high],#show-low:checked~.tabs label[for=show-low],\
#show-both:checked~.tabs label[for=show-both]{background:var(--ink);color:var(--paper)}\
.tab:focus-visible~.tabs{outline:3px solid var(--focus);outline-offset:2px}\
.view{overflow-x:auto;min-width:0}.view svg{display:block;max-width:none}.note{margin:0 0 8px;color:var(--soft)}.note:empty{display:none}\
#show-high:checked~.views .low,#show-low:checked~.views .high{display:none}\
#show-both:checked~.views{display:flex;gap:10px;align-items:flex-start}#show-both:checked~.views .view{flex:1 1 0}\
.js .view svg{cursor:pointer}.view svg:focus-visible{outline:3px solid var(--focus)}\
svg.chosen [data-e]{opacity:.25}svg.chosen .past,svg.chosen .on{opacity:1}svg circle.on{stroke:#e09f00;stroke-width:4}\
svg line.on{stroke-width:4}\
.chosen{display:none}.js section.chosen{display:block}.told{background:var(--band);border-radius:8px;padding:10px 14px;font-size:14px}\
.told p{margin:0 0 6px}.told dl{display:grid;grid-template-columns:max-content 1fr;gap:2px 12px;margin:0;font-size:13.5px}\
.told dt{color:var(--soft)}.told dd{margin:0;min-width:0;overflow-wrap:anywhere}.told .big{font-size:16px;font-weight:600}\
.told button{font:inherit;font-size:13px;border:1px solid var(--hair);background:var(--paper);color:var(--ink);border-radius:6px;\
padding:1px 8px;margin:1px 4px 1px 0;cursor:pointer}\
a:focus-visible,button:focus-visible,.does:focus-visible{outline:3px solid var(--focus);outline-offset:1px}\
.events{border-top:1px solid var(--hair)}.events summary{padding:12px 20px;cursor:pointer;font-weight:600}\
.wide{overflow-x:auto;padding:0 20px 20px}table{border-collapse:collapse;font-size:13.5px;min-width:640px;width:100%}\
th{text-align:left;color:var(--soft);font-weight:600;font-size:12.5px;border-bottom:1px solid var(--hair);padding:4px 10px 4px 0}\
td{border-bottom:1px solid var(--hair);padding:3px 10px 3px 0;vertical-align:top}td code,.raw{font:12px/1.6 var(--mono)}\
.num{text-align:right;width:1%;font:12px/1.7 var(--mono)}.raw{color:var(--soft);white-space:nowrap}\
.who{font:700 13px/1.5 var(--mono)}tr.infra td{color:var(--soft)}tr:target td,tr.on td{background:var(--pick)}\
tr.past td{background:var(--past)}\
footer{padding:14px 20px 30px;color:var(--soft);font-size:13px;border-top:1px solid var(--hair)}\
@media(min-width:1000px){main{display:grid;grid-template-columns:minmax(320px,32%) minmax(0,1fr)}\
.left{position:sticky;top:0;align-self:start;max-height:100vh;overflow-y:auto;border-right:1px solid var(--hair)}\
.left section{padding-bottom:6px}}\
@media(min-width:1800px){body{font-size:17px}.code,.out{font-size:15px}.view svg{zoom:1.25}}\
@media(max-width:999px){main{display:block}.left{display:contents}section{padding:12px 14px}header{padding:12px 14px 8px}\
section.chosen.some{position:sticky;bottom:0;z-index:2;background:var(--paper);border-top:1px solid var(--hair);max-height:44vh;\
overflow-y:auto}main{display:flex;flex-direction:column}section.chosen{order:9}}\
@media print{section.chosen,.tabs{display:none!important}.view{display:block!important;overflow:visible}main{display:block}}";
