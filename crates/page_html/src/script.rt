//! The script of a page, which tells of the event that is chosen. It has no byte that is escaped, so it stands in the page as it is:
//! no quotes but backquotes, no line feed, and nothing is compared by size.

pub const SCRIPT: &[u8] = b"\
(function(){\
var d=document,root=d.documentElement,box=d.querySelector(`.told`),sheet=d.querySelector(`section.chosen`);\
var hint=box.textContent,rows={},spots={},cur=null;\
function all(q,e){return Array.prototype.slice.call((e||d).querySelectorAll(q))}\
function make(n,t,c){var e=d.createElement(n);if(t){e.textContent=t}if(c){e.className=c}return e}\
root.classList.add(`js`);\
all(`tr[id]`).forEach(function(r){rows[r.id]=r});\
[`high`,`low`].forEach(function(v){all(`.`+v+` svg [data-e]`).forEach(function(g){\
var k=v.charAt(0)+(Number(g.getAttribute(`data-e`))+1);(spots[k]=spots[k]||[]).push(g)})});\
function needs(k){return rows[k].getAttribute(`data-needs`).split(` `).filter(Boolean).map(function(n){return k.charAt(0)+n})}\
function twin(k){var n=rows[k].getAttribute(`data-twin`);return n===`0`?null:(k.charAt(0)===`h`?`l`:`h`)+n}\
function node(k){return rows[k].getAttribute(`data-n`)}\
function cell(k,c){var e=rows[k].querySelector(`.`+c);return e?e.textContent:``}\
function past(k){var seen={},todo=[k],x;while(todo.length){x=todo.pop();if(!seen[x]){seen[x]=1;\
if(rows[x]){needs(x).forEach(function(y){todo.push(y)})}}}return seen}\
function each(k,f){if(rows[k]){f(rows[k])}(spots[k]||[]).forEach(f)}\
function clear(){all(`.on,.past`).forEach(function(e){e.classList.remove(`on`,`past`)});\
all(`svg.chosen`).forEach(function(e){e.classList.remove(`chosen`)})}\
function link(k){var b=make(`button`,k.slice(1));b.title=cell(k,`say`);\
b.addEventListener(`click`,function(){choose(k,true)});return b}\
function line(l,t,v){var e=make(`dd`);l.appendChild(make(`dt`,t));v.forEach(function(x){e.appendChild(x)});l.appendChild(e)}\
function words(t){return d.createTextNode(t)}\
function mark(k,p){Object.keys(p).forEach(function(y){each(y,function(e){e.classList.add(`past`)})});\
each(k,function(e){e.classList.add(`on`);if(e.ownerSVGElement){e.ownerSVGElement.classList.add(`chosen`)}})}\
function tell(k,t,p){var l=make(`dl`),n=Object.keys(p).length-1,at=cell(k,`at`),direct=needs(k).filter(function(y){return rows[y]});\
box.textContent=``;box.appendChild(make(`p`,cell(k,`say`),`big`));\
line(l,`Event`,[words(k.slice(1)+(k.charAt(0)===`h`?` of the source`:` of the sites`))]);\
if(at){line(l,`Source`,[words(`line `+at)])}\
line(l,`Site`,[words(rows[k].cells[2].textContent)]);\
line(l,`Led to it`,n?[words(n+(n===1?` event; directly `:` events; directly `))].concat(direct.map(link)):[words(`nothing before it`)]);\
line(l,k.charAt(0)===`h`?`Of the sites`:`Of the source`,t?[link(t)]:[words(`none`)]);\
line(l,`History`,[words(cell(k,`raw`))]);box.appendChild(l);\
var b=make(`button`,`Choose none (Esc)`);b.addEventListener(`click`,none);box.appendChild(b);sheet.classList.add(`some`)}\
function show(k){(spots[k]||[]).forEach(function(g){if(g.tagName===`circle`){if(g.getClientRects().length){\
g.scrollIntoView({block:`nearest`,inline:`nearest`})}}})}\
function choose(k,scroll){if(!rows[k]){return}clear();cur=k;var t=twin(k),p=past(k),n=node(k);\
if(t){if(!rows[t]){t=null}}if(t){mark(t,past(t))}mark(k,p);\
if(n!==`0`){all(`.code [data-n]`).forEach(function(e){if(e.getAttribute(`data-n`)===n){e.classList.add(`on`)}})}\
tell(k,t,p);if(scroll){show(k)}}\
function none(){clear();cur=null;box.textContent=hint;sheet.classList.remove(`some`)}\
function step(k,n){var next=k.charAt(0)+(Number(k.slice(1))+n);if(rows[next]){choose(next,true)}}\
all(`.view svg`).forEach(function(s){var v=s.closest(`.high`)?`h`:`l`,marks=all(`circle[data-e]`,s);\
s.setAttribute(`tabindex`,`0`);s.setAttribute(`role`,`group`);s.setAttribute(`aria-label`,`Picture: up and down choose events`);\
s.addEventListener(`click`,function(e){var best=null,far=Infinity;marks.forEach(function(g){var r=g.getBoundingClientRect();\
var by=Math.abs(r.top+r.height/2-e.clientY)+Math.abs(r.left+r.width/2-e.clientX)/1000;\
if(Math.min(by,far)===by){far=by;best=g}});if(best){choose(v+(Number(best.getAttribute(`data-e`))+1),false)}});\
s.addEventListener(`keydown`,function(e){var n=e.key===`ArrowDown`?1:e.key===`ArrowUp`?-1:0;if(!n){return}\
if(e.ctrlKey||e.altKey||e.metaKey){return}e.preventDefault();\
var same=cur?cur.charAt(0)===v:false;if(same){step(cur,n)}else{choose(v+1,true)}})});\
var by={};Object.keys(rows).forEach(function(k){var n=node(k);if(k.charAt(0)===`h`){if(n!==`0`){(by[n]=by[n]||[]).push(k)}}});\
all(`.code [data-n]`).forEach(function(e){var es=by[e.getAttribute(`data-n`)];if(!es){return}e.classList.add(`does`);\
e.addEventListener(`click`,function(){choose(es[(es.indexOf(cur)+1)%es.length],true)})});\
all(`a[href]`).forEach(function(a){var k=a.getAttribute(`href`).slice(1);if(rows[k]){\
a.addEventListener(`click`,function(e){e.preventDefault();choose(k,true)})}});\
d.addEventListener(`keydown`,function(e){if(e.key===`Escape`){none()}});\
if(rows[location.hash.slice(1)]){choose(location.hash.slice(1),true)}\
})();";
